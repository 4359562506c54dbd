//! What the later rounds start from: the survivors, and the table's rows in their orders.
ghost use Rattle.std.specs.Prelude.{◌≡◌, ◌<◌, ◌^◌, length, map, None};
ghost use Rattle.cs_schema.specs.FileNames.{FileContents};
ghost use Rattle.cs_schema.specs.Order.{Fits};
ghost use Rattle.cs_schema.specs.Rows.{IsTable};
ghost use Rattle.cs_order.specs.Orders.{AreOrdersOf};
ghost use Rattle.cs_order.specs.Tables.{table_of};
ghost use Rattle.cs_recovery.proofs.CatalogFacts.{IsTable-prop};
ghost use Rattle.cs_rebuild.specs.Steps.{AreRead, row_fault};
ghost use Rattle.cs_rebuild.specs.StoreFacts.{HaveImageRoom, HaveJoinRoom, AreImagesThere, AreJoinsThere, HaveWidths, HaveKeys, HaveTops};
ghost use Rattle.cs_rebuild.specs.StoreFacts.{HaveEntries, HaveOrders, AreNumbersBelow, AreInOrder, HaveRoomInRanges};

use cs_order::Orders;
use cs_rows::{Survivors, Table};
use cs_schema::{Catalog, Loss};

/// What survives a loss, and the table's rows with their orders. Tasks rely on its ghost fields.
#[derive(Drop)]
pub struct OrderedStore<'a> {
    pub catalog: &'a Catalog,
    pub loss: Loss,
    pub survivors: &'a Survivors<'a>,
    pub walked: Table<'a>,
    pub orders: Orders,
    pub ghost same: { survivors.now.catalog ≡ catalog.now },
    pub ghost image_room: { HaveImageRoom catalog.now survivors.now },
    pub ghost join_room: { HaveJoinRoom catalog.now survivors.now },
    pub ghost images_there: { AreImagesThere catalog.now loss survivors.now },
    pub ghost joins_there: { AreJoinsThere catalog.now loss survivors.now },
    pub ghost widths: { HaveWidths catalog.now loss survivors.now },
    pub ghost keys: { HaveKeys catalog.now loss survivors.now },
    pub ghost tops: { HaveTops catalog.now loss survivors.now },
    pub ghost entries: { HaveEntries catalog.now loss survivors.now },
    pub ghost kinds: { walked.kinds ≡ map (λ c. c.kind) catalog.now.columns },
    pub ghost few: { length walked.rows < 2 ^ 32 },
    pub ghost table: { IsTable catalog.now (table_of catalog.now walked.rows) } by { IsTable-prop catalog.now (table_of catalog.now walked.rows) },
    pub ghost fits: { Fits catalog.now (table_of catalog.now walked.rows) },
    pub ghost order_rows: { orders.rows ≡ length walked.rows },
    pub ghost order_room: { HaveOrders catalog.now orders },
    pub ghost below: { AreNumbersBelow catalog.now walked.rows orders },
    pub ghost each: { AreInOrder catalog.now walked.rows orders },
    pub ghost ranges: { HaveRoomInRanges catalog.now orders },
}

/// What survives a loss of a store, with its rows and their orders.
pub fn store_of<'a>(
    catalog: &'a Catalog,
    loss: Loss,
    survivors: &'a Survivors<'a>,
    walked: Table<'a>,
    orders: Orders,
) -> OrderedStore<'a>
    requires read { (F : FileContents) × AreRead catalog.now F loss survivors.now }
    requires kinds { walked.kinds ≡ map (λ c. c.kind) catalog.now.columns }
    requires few { length walked.rows < 2 ^ 32 }
    requires table { IsTable catalog.now (table_of catalog.now walked.rows) }
    requires orders { AreOrdersOf catalog.now walked.rows orders }
    requires rows_sound { row_fault catalog.now walked.rows ≡ None }
    ensures catalog { result.catalog.now ≡ catalog.now }
    ensures loss { result.loss ≡ loss }
    ensures survivors { result.survivors.now ≡ survivors.now }
    ensures walked { result.walked ≡ walked.entry }
    ensures orders { result.orders ≡ orders }
{
    OrderedStore {
        catalog,
        loss,
        survivors,
        walked,
        orders,
    }
}
