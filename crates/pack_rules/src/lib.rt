// The rules of a pack: their syntax, and the flat arrays in which a parsed pack holds them.
//
// specs/Syntax.antt has the rules as they are written, specs/Held.antt reads them back from a pack.
// Whoever reads a pack makes an empty one, pack_reader fills it, and selection and check are lent it;
// `single_at` takes a relation's numbers out of it, once, for those who look at it alone, `start_at`
// and `stop_at` tell where the relations of a clause and the clauses of a rule stand.
#![tactic(auto)]

ghost use Rattle.std.specs.Prelude.{◌≡◌, [], ◌≤◌, ◌<◌, min, get_or};
ghost use Rattle.pack_rules.specs.Room.{range_room, relation_room};
ghost use Rattle.pack_rules.specs.Held.{held_rules};
ghost use Rattle.pack_rules.specs.Stretch.{start_at, end_at, ranges_from_at, single_at};

pub mod letter;
mod single;

pub use single::Single;

pub const RANGE_ROOM: usize = 2048;

pub const RELATION_ROOM: usize = 320;

pub const CLAUSE_ROOM: usize = 40;

pub const RULE_ROOM: usize = 6;

pub type RangeEnds = [u32; RANGE_ROOM];

pub type Columns = [u32; 1280];

pub type ClauseEnds = [usize; CLAUSE_ROOM];

pub type Keywords = [u8; RULE_ROOM];

pub type RuleEnds = [usize; RULE_ROOM];

// A pack that was read. Every array is filled from its front; what lies past the filled part means
// nothing. It is fixed memory of plain numbers: a keyword is its number, not the enum.
#[derive(Drop)]
pub struct Pack {
    // The ends of ranges `a..b`; a value a is the range a..a.
    pub low: RangeEnds,
    pub high: RangeEnds,
    // Four numbers for each relation, at 4 * j: its operand's letter, its modulus (0: none), its
    // comparison's code (0 `=`, 1 `!=`), and where its ranges end.
    pub columns: Columns,
    // Where the relations of each clause end.
    pub relations: ClauseEnds,
    // Of each rule: its keyword's number, and where its clauses end; `other:` has none.
    pub keyword: Keywords,
    pub clauses: RuleEnds,
    // How many rules there are.
    pub count: usize,
}

// A pack without rules.
pub fn empty() -> Pack
    ensures { held_rules result ≡ [] }
{
    Pack {
        low: [0; RANGE_ROOM],
        high: [0; RANGE_ROOM],
        columns: [0; 1280],
        relations: [0; CLAUSE_ROOM],
        keyword: [0; RULE_ROOM],
        clauses: [0; RULE_ROOM],
        count: 0,
    }
}

// Where the part k begins, of parts that end at these places: where the one before it ends.
pub fn start_at(ends: &[usize], k: usize) -> usize
    ensures { result ≡ start_at ends.now k }
{
    if k == 0 {
        return 0;
    }
    ends.get(k - 1).copied().unwrap_or(0)
}

// Where the part k ends, among `room` places.
pub fn stop_at(ends: &[usize], k: usize, room: usize) -> usize
    ensures { result ≡ min (get_or ends.now k 0) room }
{
    ends.get(k).copied().unwrap_or(0).min(room)
}

// Where the ranges of the relation j end.
fn end_at(pack: &Pack, j: usize) -> usize
    requires { j < relation_room }
    ensures { result ≡ end_at pack.now.columns j }
{
    pack.columns[4 * j + 3] as usize
}

// Where they begin: where those of the relation before it end.
pub fn from_at(pack: &Pack, j: usize) -> usize
    requires { j ≤ relation_room }
    ensures { result ≡ ranges_from_at pack.now.columns j }
{
    if j == 0 {
        return 0;
    }
    end_at(pack, j - 1)
}

// The relation j's numbers.
pub fn single_at(pack: &Pack, j: usize) -> Single
    requires { j < relation_room }
    ensures { result ≡ single_at pack.now.columns j }
{
    Single {
        operand: pack.columns[4 * j],
        modulus: pack.columns[4 * j + 1],
        negated: pack.columns[4 * j + 2] == 1,
        from: from_at(pack, j),
        to: end_at(pack, j).min(RANGE_ROOM),
    }
}
