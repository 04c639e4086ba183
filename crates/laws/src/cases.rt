ghost use Rattle.laws.specs.WorkedCases.{Table, ADay, AWholeDay, TwoEntities};

use model::fault::{Fault, Layer, Refusal};

// Worked cases, by their expected values.
pub struct Cases {
    // the pattern of the least Long
    pub least_long: u64,
    // the elements of the set of -1 and 1, as they are written
    pub written_set: [i64; 2],
    // the set of 3 and 3: its need, and the records that it takes
    pub need: usize,
    pub records: usize,
    // of the members red and blue, the id of the default
    pub default_member: u32,
    // a required attribute is missing: how the check refuses it
    pub missing: Fault,
    // true under Long: the Bool that it is, and how the check refuses it
    pub truth: bool,
    pub misplaced: Fault,
    // an optional attribute with 5: its records with its record
    pub some_five: usize,
    // a panel that is stored with `cut` true and without a lot: what `cut` gives, and where the lot is absent
    pub stored_cut: bool,
    pub absent_lot: usize,
    // what `cut` gives where the panel is not stored
    pub default_cut: bool,
    // the bytes of the image of one bare entity, and where it is broken with the last of them cut off
    pub image_bytes: usize,
    pub broken_at: usize,
}

// What the definitions give in the worked cases.
pub fn worked_cases() -> Cases
    ensures { Table result }
{
    Cases {
        least_long: 9_223_372_036_854_775_808,
        written_set: [1, -1],
        need: 3,
        records: 2,
        default_member: 1,
        missing: Fault::of_entity(Refusal::NonConforming, 0, 2),
        truth: true,
        misplaced: Fault::of_entity(Refusal::NonConforming, 0, 3),
        some_five: 3,
        stored_cut: true,
        absent_lot: 1,
        default_cut: false,
        image_bytes: 68,
        broken_at: 44,
    }
}

// A day in a pool of 17 records, of which 12 are taken by the request, the defaults and the action table.
pub struct Day {
    // after the make with one panel, and after a second panel was put
    pub made: usize,
    pub full: usize,
    // the first panel, put again as it was, is one record too many
    pub put_again: Fault,
    // without the equal element it fits, since the records that it had count as free; then the second is removed
    pub replaced: usize,
    pub removed: usize,
    // it cannot be removed twice
    pub removed_again: Fault,
    // what a walk gives at the end
    pub seam: u64,
}

// What the definitions give along the day.
pub fn a_day() -> Day
    ensures { ADay result }
{
    Day {
        made: 15,
        full: 17,
        put_again: Fault::whole_call(Refusal::Full, Layer::Entity),
        replaced: 17,
        removed: 15,
        removed_again: Fault::whole_call(Refusal::NotStored, Layer::Entity),
        seam: 3,
    }
}

// The same day as one history of a make, puts, removals and a walk, two of them refused.
pub fn a_whole_day()
    ensures { AWholeDay }
{}

// The name that a walk gives which passes from a panel to its lot, and on to the lot's dye.
pub fn walk_through_two_entities() -> u32
    ensures { TwoEntities result }
{
    32
}
