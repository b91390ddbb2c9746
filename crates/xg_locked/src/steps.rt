//! The table, and the steps of its seats.
ghost use Rattle.std.specs.Prelude.{◌≡◌, ◌<◌, ◌+◌, ◌++◌, [], IfOk};
ghost use Rattle.xg_locked.specs.Rights.{whole_view, both, seen, IsCutInTwo, IsLoaded};

use crate::rule::{Cut, Cuts, JoinsViews, LoadsView, RightsRule};
use crate::view::View;
use atomic_table::{Badge, Seat, Shared, Table};
use std::alloc::{AllocError, Global};

/// The table with its memory.
pub type RightsTable = Table<(), View, u64, RightsRule, Global>;

/// The part of the table that many threads may use at once.
pub type SharedRights = Shared<(), View, u64, RightsRule>;

/// A seat of the table.
pub type RightsSeat = Seat<(), View>;

/// A seat in a type that can lie in another's field.
pub type RightsBadge = Badge<View>;

/// Makes a table with its first seat, which holds all rights, tickets and parts.
pub fn open(alloc: Global, number: u64) -> Result<(RightsTable, RightsSeat), AllocError>
    ensures table { IfOk result (λ t. (0 < t.0.shared.table_id.words) × (t.0.shared.key ≡ number)) }
    ensures seat { IfOk result (λ t. (t.1.table_id ≡ t.0.shared.table_id) × (t.1.me ≡ (whole_view number, []))) }
{
    Table::of_words(alloc, &[number], &number)
}

/// Cuts a seat's view as `C` says.
pub fn cut<C: Cut>(table: &SharedRights, seat: &mut RightsSeat) -> RightsSeat
    requires table { (seat.old.table_id ≡ table.now.table_id) × (0 < table.now.table_id.words) }
    requires cut { IsCutInTwo seat.old.me.0 C.kept C.given }
    ensures kept { (seat.new.table_id ≡ seat.old.table_id) × (seat.new.me ≡ (C.kept, seat.old.me.1)) }
    ensures given { (result.table_id ≡ seat.old.table_id) × (result.me ≡ (C.given, [])) }
{
    table.split_seat::<Cuts<C>>(seat)
}

/// Loads word 0 for a seat: answers the word, which tells the seat what the rule says of its view.
pub fn load(table: &SharedRights, seat: &mut RightsSeat) -> u64
    requires table { (seat.old.table_id ≡ table.now.table_id) × (0 < table.now.table_id.words) }
    requires live { 0 < seat.old.me.0.parts }
    ensures same { (seat.new.table_id ≡ seat.old.table_id) × (seat.new.me ≡ seat.old.me) }
    ensures loaded { IsLoaded result seat.old.me.0 }
{
    table.load::<LoadsView>(seat, 0)
}

/// Puts the views of two seats together.
fn join(table: &SharedRights, seat: &mut RightsSeat, other: RightsSeat)
    requires table { (seat.old.table_id ≡ table.now.table_id) × (other.table_id ≡ table.now.table_id)
        × (0 < table.now.table_id.words) × (other.me.1 ≡ []) }
    requires live { (0 < seat.old.me.0.parts) × (0 < other.me.0.parts) }
    ensures same { (seat.new.table_id ≡ seat.old.table_id)
        × (seat.new.me ≡ (both seat.old.me.0 other.me.0, seat.old.me.1)) }
{
    table.join_seat::<JoinsViews>(seat, other);
}

/// Puts the views of two seats together and loads word 0: their numbers are one, and no right stands in both.
pub fn meet(table: &SharedRights, seat: &mut RightsSeat, other: RightsSeat)
    requires table { (seat.old.table_id ≡ table.now.table_id) × (other.table_id ≡ table.now.table_id)
        × (0 < table.now.table_id.words) × (other.me.1 ≡ []) }
    requires live { (0 < seat.old.me.0.parts) × (0 < other.me.0.parts) }
    ensures same { seat.new.table_id ≡ seat.old.table_id }
    ensures numbers { seat.old.me.0.number ≡ other.me.0.number }
    ensures view { seat.new.me
        ≡ (
          seen (seat.old.me.0.rights ++ other.me.0.rights) (seat.old.me.0.tickets + other.me.0.tickets)
              (seat.old.me.0.parts + other.me.0.parts) seat.old.me.0.number,
          seat.old.me.1,
        ) }
    ensures loaded { IsLoaded seat.old.me.0.number seat.new.me.0 }
{
    join(table, seat, other);
    load(table, seat);
}
