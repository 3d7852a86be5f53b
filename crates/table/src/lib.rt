// The table of rules in memory: entries of twenty-five kinds, imports, variables, and their limits.
#![tactic(auto)]

mod texts;

ghost use Rattle.std.specs.Prelude.{◌≡◌};
ghost use Rattle.table.specs.Kinds.{sort_number};
ghost use Rattle.table.specs.Tables.{Shaped, empty_table};

use values::Number;

// The sort of an entry: condition, event, number, or none.
#[derive(Clone, Copy, Debug, PartialEq, Eq)]
pub enum Sort {
    None,
    Condition,
    Event,
    Number,
}

// The number of a sort.
impl From<Sort> for u8 {
    ghost from_gives = { λ s n. n ≡ sort_number s };

    fn from(s: Sort) -> u8 {
        match s {
            Sort::None => 0,
            Sort::Condition => 1,
            Sort::Event => 2,
            Sort::Number => 3,
        }
    }
}

// "An entry is one of twenty-five kinds, each with its own operands."
#[derive(Clone, Copy, Debug, PartialEq, Eq)]
pub enum Entry {
    // 0 import, of a condition
    ImportedCondition(u16),
    // 1 defined C
    Defined(u16),
    // 2 pair E E
    Pair(u16, u16),
    // 3 not C
    Not(u16),
    // 4 or C C
    Or(u16, u16),
    // 5 and C C
    And(u16, u16),
    // 6 implies C C
    Implies(u16, u16),
    // 7 less N N
    Less(u16, u16),
    // 8 equal N N
    Equal(u16, u16),
    // 9 import, of an event
    ImportedEvent(u16),
    // 10 start C
    Start(u16),
    // 11 end C
    End(u16),
    // 12 both E E
    Both(u16, u16),
    // 13 either E E
    Either(u16, u16),
    // 14 E when C
    When(u16, u16),
    // 15 constant
    Constant(i64),
    // 16 variable
    Variable(u16),
    // 17 sum N N
    Sum(u16, u16),
    // 18 difference N N (first less second)
    Difference(u16, u16),
    // 19 clock
    Clock,
    // 20 value of an event import
    Value(u16),
    // 21 time of E
    Time(u16),
    // 22 update E, variable, N
    Update(u16, u16, u16),
    // 23 alarm E
    Alarm(u16),
    // 24 property C
    Property(u16),
}

// A script's rules: n entries, q imports (true: an event) and v variables, each in the first of its slots.
#[derive(Clone, Copy, Debug, PartialEq, Eq)]
pub struct Table {
    pub n: usize,
    pub q: usize,
    pub v: usize,
    pub events: [bool; Table::IMPORTS],
    pub variables: [Number; Table::VARIABLES],
    pub entries: [Entry; Table::ENTRIES],
}

impl Table {
    // "entries at most 128, imports at most 48, variables at most 32"
    pub const ENTRIES: usize = 128;

    pub const IMPORTS: usize = 48;

    pub const VARIABLES: usize = 32;

    // "the empty table (counts 0, all slots unused)"
    pub fn empty() -> Table
        ensures { result ≡ empty_table }
    {
        Table {
            n: 0,
            q: 0,
            v: 0,
            events: [false; Table::IMPORTS],
            variables: [Number::Undefined; Table::VARIABLES],
            entries: [Entry::Constant(0); Table::ENTRIES],
        }
    }

    // Every value of this type has its slots: 128 for entries, 48 for imports, 32 for variables.
    pub fn shaped(self)
        ensures { Shaped self }
    {}
}
