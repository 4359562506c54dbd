//! Words, texts and cells.
ghost use Rattle.std.specs.Prelude.{◌≤◌};

use cs_schema::{Cells, Kind, Texts, Value, Word, WordFault};
use std::alloc::{AllocError, Global};

/// 256 times the letter a.
const LETTERS: [u8; 256] = [97; 256];

/// `count` letters.
fn letters(count: usize) -> &'static str
    requires { count ≤ 256 }
{
    match std::str::from_utf8(&LETTERS[..count]) {
        Ok(text) => text,
        Err(_) => "no text",
    }
}

/// Whether a word keeps a text of this many bytes, and is greater than an int.
fn is_word(text: &str, length: usize) -> bool {
    match Word::new(text) {
        Ok(word) => {
            text.len() == length && word.as_str() == text && Value::Int(7) < Value::Text(word)
        }
        Err(_) => false,
    }
}

#[test]
fn words_have_at_most_255_bytes(rt: HostRuntime) {
    assert!(rt; matches!(Word::new(letters(256)), Err(WordFault::TooLong)));
    for (text, length) in [(letters(255), 255), ("\u{e9}", 2), ("", 0)] {
        assert!(rt; is_word(text, length), "{text}");
    }
}

/// Adds a text to a block, if it has at most 255 bytes.
fn push_text(texts: &mut Texts, text: &str) -> Result<bool, AllocError> {
    match Word::new(text) {
        Ok(word) => {
            texts.push(word.as_str())?;
            Ok(true)
        }
        Err(_) => Ok(false),
    }
}

/// Whether the block has é, these letters and the empty text, twice.
fn is_twice(texts: &Texts, letters: &str) -> bool {
    texts.len() == 6
        && texts.get(1) == letters
        && texts.get(3) == "é"
        && texts.same(4, texts, 1)
        && texts.word(4).as_str() == letters
        && texts.compare(5, texts, 0).is_lt()
}

/// Whether this many letters are kept between other texts, and copied unchanged.
fn keeps_letters(alloc: Global, count: usize) -> Result<bool, AllocError>
    requires { count ≤ 255 }
{
    let mut texts = Texts::new(alloc);
    for text in ["é", letters(count), ""] {
        if !push_text(&mut texts, text)? {
            return Ok(false);
        }
    }
    let mut twice = Texts::new(alloc);
    twice.extend(&texts, 0, texts.len())?;
    twice.append(texts)?;
    Ok(is_twice(&twice, letters(count)))
}

#[test]
fn texts_are_kept_with_ample_memory(rt: HostRuntime) {
    for count in [0usize, 1, 255] {
        assert!(rt;
            keeps_letters(rt.alloc(), count) == Ok(true),
            "{count} letters"
        );
    }
}

#[test]
fn least_cells(rt: HostRuntime) {
    assert!(rt; Kind::Int.least() == Value::Int(i64::MIN));
    assert_eq!(rt; Word::empty().as_str(), "");
}

/// The ints 5 and 3, then 4 and 3 again.
fn grown(alloc: Global) -> Result<Cells, AllocError> {
    let mut cells = Cells::new(alloc, Kind::Int);
    cells.push(Value::Int(5))?;
    cells.push(Value::Int(3))?;
    let mut more = Cells::new(alloc, Kind::Int);
    more.push(Value::Int(4))?;
    more.push_cell(&cells, 1)?;
    cells.append(more)?;
    Ok(cells)
}

/// Whether the cells are these ints.
fn are_ints(cells: &Cells, wanted: &[i64]) -> bool {
    if cells.len() != wanted.len() {
        return false;
    }
    for (i, int) in wanted.iter().enumerate() {
        if cells.cell(i) != Value::Int(*int) {
            return false;
        }
    }
    true
}

#[test]
fn cells_grow_with_ample_memory(rt: HostRuntime) {
    let Ok(mut cells) = grown(rt.alloc()) else {
        panic!(rt; "no memory");
    };
    assert!(rt; cells.len() == 4 && are_ints(&cells, &[5, 3, 4, 3]));
    assert!(rt; cells.same(1, &cells, 3) && !cells.same(0, &cells, 1));
    cells.truncate(1);
    assert_eq!(rt; cells.len(), 1);
}
