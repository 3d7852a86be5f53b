// Entries taken apart into a kind and operands, and made from them.
#![tactic(auto)]

ghost use Rattle.std.specs.Prelude.{◌≡◌};
ghost use Rattle.kinds.specs.Apart.{apart_of, made_of, sort_of_kind, wide_of, number_of, holding, no_operand, one_operand, two_entries, an_update};

use bits::{signed, unsigned};
use table::{Entry, Sort};

// What an operand names: nothing, an earlier entry of a sort, an import of a sort, a variable, or a number itself.
#[derive(Clone, Copy, Debug, PartialEq, Eq)]
pub enum Operand {
    Nothing,
    Entry(Sort, u16),
    Imported(Sort, u16),
    Variable(u16),
    Constant(i64),
}

// An entry taken apart: the number of its kind, and its operands in order. A number, for reason (a): "5 bits of kind" is the script's field, and
// `made`, which docs/ name, answers for any number; the enum of the kinds is `table::Entry`.
#[derive(Clone, Copy, Debug, PartialEq, Eq)]
pub struct Apart {
    pub kind: usize,
    pub first: Operand,
    pub second: Operand,
    pub third: Operand,
}

// The sort of a kind, as a number: conditions come first, then events, then numbers. Numbers, for reason (a): docs/ name it and what it promises,
// `sort_of_kind_lem`.
pub fn sort_of_kind(kind: usize) -> u8
    ensures { result ≡ sort_of_kind kind }
{
    if kind < 9 {
        return 1;
    }
    if kind < 15 {
        return 2;
    }
    if kind < 22 {
        return 3;
    }
    0
}

impl Operand {
    // How many bits the operand's field takes; nothing takes none.
    pub fn width(self) -> usize
        ensures { result ≡ wide_of self }
    {
        match self {
            Operand::Nothing => 0,
            Operand::Entry(s, a) => 7,
            Operand::Imported(s, i) => 6,
            Operand::Variable(x) => 5,
            Operand::Constant(z) => 48,
        }
    }

    // The number in the operand's field; nothing has 0.
    pub fn number(self) -> u64
        ensures { result ≡ number_of self }
    {
        match self {
            Operand::Nothing => 0,
            Operand::Entry(s, a) => a as u64,
            Operand::Imported(s, i) => i as u64,
            Operand::Variable(x) => x as u64,
            Operand::Constant(z) => unsigned(z),
        }
    }

    // The operand of the same place, with the number that its field holds.
    pub fn holding(self, v: u64) -> Operand
        ensures { result ≡ holding self v }
    {
        match self {
            Operand::Nothing => Operand::Nothing,
            Operand::Entry(s, a) => Operand::Entry(s, (v % 65536) as u16),
            Operand::Imported(s, i) => Operand::Imported(s, (v % 65536) as u16),
            Operand::Variable(x) => Operand::Variable((v % 65536) as u16),
            Operand::Constant(z) => Operand::Constant(signed(v)),
        }
    }
}

fn none(kind: usize) -> Apart
    ensures { result ≡ no_operand kind }
{
    Apart {
        kind,
        first: Operand::Nothing,
        second: Operand::Nothing,
        third: Operand::Nothing,
    }
}

fn one(kind: usize, o: Operand) -> Apart
    ensures { result ≡ one_operand kind o }
{
    Apart {
        kind,
        first: o,
        second: Operand::Nothing,
        third: Operand::Nothing,
    }
}

fn two(kind: usize, s: Sort, a: u16, t: Sort, b: u16) -> Apart
    ensures { result ≡ two_entries kind s a t b }
{
    Apart {
        kind,
        first: Operand::Entry(s, a),
        second: Operand::Entry(t, b),
        third: Operand::Nothing,
    }
}

// "22 update E, variable, N"
fn update(a: u16, x: u16, b: u16) -> Apart
    ensures { result ≡ an_update a x b }
{
    Apart {
        kind: 22,
        first: Operand::Entry(Sort::Event, a),
        second: Operand::Variable(x),
        third: Operand::Entry(Sort::Number, b),
    }
}

// An entry's kind and its operands, in the table's order.
#[tactic(auto, unfolding(crate::specs::Apart::apart_of, table::specs::Kinds::kind_of, table::specs::Kinds::operands_of))]
pub fn apart_of(e: Entry) -> Apart
    ensures { result ≡ apart_of e }
{
    match e {
        Entry::ImportedCondition(i) => one(0, Operand::Imported(Sort::Condition, i)),
        Entry::Defined(a) => one(1, Operand::Entry(Sort::Condition, a)),
        Entry::Pair(a, b) => two(2, Sort::Event, a, Sort::Event, b),
        Entry::Not(a) => one(3, Operand::Entry(Sort::Condition, a)),
        Entry::Or(a, b) => two(4, Sort::Condition, a, Sort::Condition, b),
        Entry::And(a, b) => two(5, Sort::Condition, a, Sort::Condition, b),
        Entry::Implies(a, b) => two(6, Sort::Condition, a, Sort::Condition, b),
        Entry::Less(a, b) => two(7, Sort::Number, a, Sort::Number, b),
        Entry::Equal(a, b) => two(8, Sort::Number, a, Sort::Number, b),
        Entry::ImportedEvent(i) => one(9, Operand::Imported(Sort::Event, i)),
        Entry::Start(a) => one(10, Operand::Entry(Sort::Condition, a)),
        Entry::End(a) => one(11, Operand::Entry(Sort::Condition, a)),
        Entry::Both(a, b) => two(12, Sort::Event, a, Sort::Event, b),
        Entry::Either(a, b) => two(13, Sort::Event, a, Sort::Event, b),
        Entry::When(a, b) => two(14, Sort::Event, a, Sort::Condition, b),
        Entry::Constant(z) => one(15, Operand::Constant(z)),
        Entry::Variable(x) => one(16, Operand::Variable(x)),
        Entry::Sum(a, b) => two(17, Sort::Number, a, Sort::Number, b),
        Entry::Difference(a, b) => two(18, Sort::Number, a, Sort::Number, b),
        Entry::Clock => none(19),
        Entry::Value(i) => one(20, Operand::Imported(Sort::Event, i)),
        Entry::Time(a) => one(21, Operand::Entry(Sort::Event, a)),
        Entry::Update(a, x, b) => update(a, x, b),
        Entry::Alarm(a) => one(23, Operand::Entry(Sort::Event, a)),
        Entry::Property(a) => one(24, Operand::Entry(Sort::Condition, a)),
    }
}

// The entry of a kind, 0 to 24, from the numbers of its operands; from 25 on there is none, and the clock stands in. No TryFrom, for reason (a):
// docs/ name it, and it answers for any number.
#[tactic(auto, unfolding(crate::specs::Apart::made_of))]
pub fn made(kind: usize, a: u16, b: u16, c: u16, z: i64) -> Entry
    ensures { result ≡ made_of kind a b c z }
{
    match kind {
        0 => Entry::ImportedCondition(a),
        1 => Entry::Defined(a),
        2 => Entry::Pair(a, b),
        3 => Entry::Not(a),
        4 => Entry::Or(a, b),
        5 => Entry::And(a, b),
        6 => Entry::Implies(a, b),
        7 => Entry::Less(a, b),
        8 => Entry::Equal(a, b),
        9 => Entry::ImportedEvent(a),
        10 => Entry::Start(a),
        11 => Entry::End(a),
        12 => Entry::Both(a, b),
        13 => Entry::Either(a, b),
        14 => Entry::When(a, b),
        15 => Entry::Constant(z),
        16 => Entry::Variable(a),
        17 => Entry::Sum(a, b),
        18 => Entry::Difference(a, b),
        19 => Entry::Clock,
        20 => Entry::Value(a),
        21 => Entry::Time(a),
        22 => Entry::Update(a, b, c),
        23 => Entry::Alarm(a),
        24 => Entry::Property(a),
        _ => Entry::Clock,
    }
}
