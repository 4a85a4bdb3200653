// One relation of a pack.
ghost use Rattle.std.specs.Prelude.{◌≤◌};
ghost use Rattle.pack_rules.specs.Room.{range_room};

// A relation's numbers, as a pack's columns have them: its operand's letter, its modulus (0: none), whether it is `!=`, and where its ranges
// begin and end.
#[derive(Clone, Copy)]
pub struct Single {
    pub operand: u32,
    pub modulus: u32,
    pub negated: bool,
    pub from: usize,
    pub to: usize,
    ghost in_room: { to ≤ range_room },
}
