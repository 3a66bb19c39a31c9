// What a call does to a board, by numbers: what refuses it, its entry, and the places of the tape. Row numbers are counted from 1, places from 0.
#![tactic(auto)]

ghost use Rattle.std.specs.Prelude.{◌≡◌, cond, ◌+◌, ◌-◌, ◌≤◌, eqb, leb, ltb};
ghost use Rattle.refusal.specs.Numbers.{number, refusal_of};
ghost use Rattle.rows.specs.declared.Call.TheVariants.{Add, Withdraw, Remark, Undo, Redo};
ghost use Rattle.rows.specs.Days.{first_after_last};
ghost use Rattle.rows.specs.Journal.{no_row};
ghost use Rattle.rows.specs.SoundLayer.{sound_by};
ghost use Rattle.plans.specs.PlanLayer.{at_most_256, room_after, moves_for, place_named, entry_chosen, row_chosen, change_plan, plan_of, judged_plan};
ghost use Rattle.plans.specs.ToldLayer.{Tells};

use refusal::Refusal;
use rows::{Call, Entry, Kind, Row};

// What a call does to the tape where nothing refuses it: how many places move up by one; the place where the inverse of its entry goes;
// and the kept and undone numbers afterwards.
#[derive(Clone, Copy, Debug, PartialEq, Eq)]
pub struct Plan {
    pub moves: usize,
    pub place: usize,
    pub kept: usize,
    pub undone: usize,
}

// A number of entries, at most 256.
#[tactic(auto, unfolding(crate::specs::PlanLayer::at_most_256))]
pub fn at_most_256(n: usize) -> usize
    ensures { result ≡ at_most_256 n }
{
    n.min(256)
}

// A row that can't be added.
fn add_refusal(count: usize, row: Row) -> Result<(), Refusal>
    ensures { refusal_of result ≡ cond (eqb row.numeral 0) 2 (cond (first_after_last row.days) 20 (cond (leb 1024 count) 3 0)) }
{
    if row.numeral == 0 {
        return Err(Refusal::NumeralZero);
    }
    if row.days.last < row.days.first {
        return Err(Refusal::NoDays);
    }
    if 1024 <= count {
        return Err(Refusal::FullBoard);
    }
    Ok(())
}

// A row number that isn't there.
fn row_refusal(count: usize, k: usize) -> Result<(), Refusal>
    ensures { refusal_of result ≡ cond (no_row count k) 4 0 }
{
    if k == 0 || count < k {
        return Err(Refusal::NoSuchRow);
    }
    Ok(())
}

// No step to undo, or to redo.
fn step_refusal(steps: usize, none: Refusal) -> Result<(), Refusal>
    ensures { refusal_of result ≡ cond (eqb steps 0) (number none) 0 }
{
    if steps == 0 {
        return Err(none);
    }
    Ok(())
}

// The place for one more kept entry.
#[tactic(auto, unfolding(crate::specs::PlanLayer::room_after))]
fn room_after(kept: usize) -> usize
    ensures { result ≡ room_after kept }
{
    kept.min(255)
}

// How many places of the tape move up for it; those of the undone entries move along.
#[tactic(auto, unfolding(crate::specs::PlanLayer::moves_for))]
fn moves_for(kept: usize, along: usize) -> usize
    requires { along ≤ 256 }
    ensures { result ≡ moves_for kept along }
{
    if kept < 256 { 0 } else { 255 + along }
}

// The undone number after one more undo.
fn one_more_undone(undone: usize) -> usize
    ensures { result ≡ cond (ltb undone 256) (undone + 1) 256 }
{
    undone.min(255) + 1
}

// A place among the rows, as an entry has it.
#[tactic(auto, unfolding(crate::specs::PlanLayer::place_named))]
fn place_named(n: usize) -> u32
    ensures { result ≡ place_named n }
{
    if n <= 1024 { n as u32 } else { 0 }
}

// The place of row number k, as an entry has it.
fn row_place(k: usize) -> u32
    ensures { result ≡ place_named (k - 1) }
{
    place_named(k.saturating_sub(1))
}

// An add, withdraw or remark that nothing refuses: it keeps a step and forgets those undone.
#[tactic(auto, using(crate::specs::PlanLaws::room_less))]
fn change_plan(kept: usize) -> Plan
    ensures { result ≡ record { moves = moves_for kept 0; place = room_after kept; kept = room_after kept + 1; undone = 0 } }
{
    let place = room_after(kept);
    Plan {
        moves: moves_for(kept, 0),
        place,
        kept: place + 1,
        undone: 0,
    }
}

#[tactic(auto, unfolding(crate::specs::PlanLayer::plan_of))]
fn undo_plan(kept: usize, undone: usize) -> Result<Plan, Refusal>
    ensures { Tells result (plan_of Undo 0 kept undone) }
{
    step_refusal(kept, Refusal::NothingKept)?;
    let place = kept.saturating_sub(1);
    Ok(Plan {
        moves: 0,
        place,
        kept: place,
        undone: one_more_undone(undone),
    })
}

#[tactic(auto, unfolding(crate::specs::PlanLayer::plan_of), using(crate::specs::PlanLaws::room_less, crate::specs::PlanLaws::at_most_le))]
fn redo_plan(kept: usize, undone: usize) -> Result<Plan, Refusal>
    ensures { Tells result (plan_of Redo 0 kept undone) }
{
    step_refusal(undone, Refusal::NothingUndone)?;
    let room = room_after(kept);
    Ok(Plan {
        moves: moves_for(kept, at_most_256(undone)),
        place: room,
        kept: room + 1,
        undone: undone.saturating_sub(1),
    })
}

// What a call does on a board of so many rows, kept and undone steps.
#[tactic(auto, unfolding(crate::specs::PlanLayer::plan_of, crate::specs::PlanLayer::change_plan))]
fn plan_of(call: Call, count: usize, kept: usize, undone: usize) -> Result<Plan, Refusal>
    ensures { Tells result (plan_of call count kept undone) }
{
    match call {
        Call::Add(row) => add_refusal(count, row).map(|_| change_plan(kept)),
        Call::Withdraw(k) | Call::Remark(k, _) => row_refusal(count, k).map(|_| change_plan(kept)),
        Call::Undo => undo_plan(kept, undone),
        Call::Redo => redo_plan(kept, undone),
    }
}

// The same, refused where the board isn't sound.
#[tactic(auto, unfolding(crate::specs::PlanLayer::judged_plan))]
pub fn judged(
    call: Call,
    count: usize,
    kept: usize,
    undone: usize,
    numbered: bool,
    newest: Entry,
    next: Entry,
) -> Result<Plan, Refusal>
    ensures { Tells result (judged_plan (sound_by count kept undone numbered newest next) (plan_of call count kept undone)) }
{
    if !rows::sound_by(count, kept, undone, numbered, newest, next) {
        return Err(Refusal::UnsoundBoard);
    }
    plan_of(call, count, kept, undone)
}

// The entry that a call carries out on so many rows, `stored` being the one found on the tape.
#[tactic(auto, unfolding(crate::specs::PlanLayer::plan_of, crate::specs::PlanLayer::change_plan, crate::specs::PlanLayer::entry_chosen))]
pub fn entry_of(call: Call, count: usize, stored: Entry) -> Entry
    ensures { result ≡ entry_chosen (plan_of call count 0 0).taped stored (plan_of call count 0 0).entry }
{
    match call {
        Call::Add(row) => rows::entry_of(Kind::PutIn as u32, place_named(count), row),
        Call::Withdraw(k) => rows::entry_of(Kind::TakeOut as u32, row_place(k), rows::blank_row()),
        Call::Remark(k, minutes) => {
            let row = rows::with_minutes(rows::blank_row(), minutes);
            rows::entry_of(Kind::Set as u32, row_place(k), row)
        }
        Call::Undo | Call::Redo => stored,
    }
}

// Its row, `old` being the one at its place: of a remark the minutes alone count.
#[tactic(auto, unfolding(crate::specs::PlanLayer::plan_of, crate::specs::PlanLayer::change_plan, crate::specs::PlanLayer::row_chosen))]
pub fn row_of(call: Call, row: Row, old: Row) -> Row
    ensures { result ≡ row_chosen (plan_of call 0 0 0).remarks row old }
{
    match call {
        Call::Remark(..) => rows::with_minutes(old, row.minutes),
        _ => row,
    }
}
