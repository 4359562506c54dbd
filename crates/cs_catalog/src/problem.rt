//! Descriptions of what breaks a rule of a catalog.
use std::fmt;

/// A value that a description mentions.
#[derive(Clone, Copy)]
pub enum Part<'a> {
    Text(&'a str),
    Count(usize),
    Number(i64),
}

impl fmt::Display for Part<'_> {
    fn fmt<W: fmt::Write>(&self, f: &mut fmt::Formatter<W>) -> fmt::Result {
        match self {
            Part::Text(text) => f.write_str(text),
            Part::Count(count) => write!(f, "{count}"),
            Part::Number(number) => write!(f, "{number}"),
        }
    }
}

/// What a description is about; it begins with this.
#[derive(Clone, Copy)]
pub enum Place<'a> {
    /// The catalog, which a description does not name.
    Catalog,
    /// A column or a projection by its index, under the key of the list.
    Item(&'static str, usize),
    /// A projection by its name.
    Projection(&'a str),
}

impl fmt::Display for Place<'_> {
    fn fmt<W: fmt::Write>(&self, f: &mut fmt::Formatter<W>) -> fmt::Result {
        match self {
            Place::Catalog => Ok(()),
            Place::Item(list, at) => write!(f, "{list} {at}: "),
            Place::Projection(name) => write!(f, "projection {name}: "),
        }
    }
}

/// A description of what breaks a rule. Its `Display` replaces each `{}` of the text by the next part.
#[derive(Clone, Copy)]
pub struct Problem<'a> {
    pub place: Place<'a>,
    text: &'static str,
    first: Part<'a>,
    second: Part<'a>,
    third: Part<'a>,
}

/// Stands for a part that a text does not use.
const NONE: Part<'static> = Part::Text("");

impl<'a> Problem<'a> {
    /// A description without parts.
    pub fn said(text: &'static str) -> Problem<'a> {
        Problem::of(text, NONE)
    }

    /// A description with one part.
    pub fn of(text: &'static str, part: Part<'a>) -> Problem<'a> {
        Problem::of_two(text, part, NONE)
    }

    /// A description with two parts.
    pub fn of_two(text: &'static str, first: Part<'a>, second: Part<'a>) -> Problem<'a> {
        Problem {
            place: Place::Catalog,
            text,
            first,
            second,
            third: NONE,
        }
    }

    /// The description, with a third part.
    pub fn and(mut self, third: Part<'a>) -> Problem<'a> {
        self.third = third;
        self
    }

    /// The description, about this place.
    pub fn at(mut self, place: Place<'a>) -> Problem<'a> {
        self.place = place;
        self
    }
}

impl fmt::Display for Problem<'_> {
    fn fmt<W: fmt::Write>(&self, f: &mut fmt::Formatter<W>) -> fmt::Result {
        self.place.fmt(f)?;
        let mut rest = self.text;
        for part in &[self.first, self.second, self.third] {
            let Some((before, after)) = rest.split_once("{}") else {
                break;
            };
            write!(f, "{before}{part}")?;
            rest = after;
        }
        f.write_str(rest)
    }
}
