// Every refusal of document 01 by name, and its number.
#![tactic(auto)]

ghost use Rattle.std.specs.Prelude.{◌≡◌};
ghost use Rattle.refusals.specs.Numbering.{number_of};

#[derive(Clone, Copy, Debug, PartialEq, Eq)]
pub enum Refusal {
    // 1: script over 4,096 bytes
    TooLong,
    // 2: a script field or label ends past the bytes
    Cut,
    // 3: format number not 1
    Format,
    // 4: n outside its limits
    EntryCount,
    // 4: q outside its limits
    ImportCount,
    // 4: v outside its limits
    VariableCount,
    // 4: the four bits not zero
    HeaderBits,
    // 4, in the writer: n, q or v outside its limits, or an unused slot not as it should be
    TableLimits,
    // 5: variable starts undefined with a nonzero number
    Initial,
    // 6: kind 25 to 31
    Kind,
    // 7: operand not an earlier entry, import >= q, or variable >= v
    Operand,
    // 8: operand or import of the wrong sort
    Sort,
    // 9: nonzero script padding
    Padding,
    // 10: label over 32, or a byte outside 0x20 to 0x7E
    Label,
    // 11: bytes after the last label
    LeftOver,
    // 12, in the writer: destination too short
    NoRoom,
    // 13, in the writer: number outside 48 bits
    Range,
    // 21: a step field ends past the bytes
    StepCut,
    // 22: time not later than the last accepted step's
    Time,
    // 23: import >= q
    StepImport,
    // 24: import not above the one before it in this step
    ImportOrder,
    // 25: condition report 11
    ConditionReport,
    // 26: nonzero step padding
    StepPadding,
    // 27: bytes after the padding
    StepLeftOver,
    // 29: monitor or table at fault, or a kept number or time out of range
    Unsound,
    // 30: no such entry, or, for a label, not an alarm or property
    NoEntry,
}

// The number that document 01 gives a refusal.
impl From<Refusal> for u8 {
    ghost from_gives = { λ r n. n ≡ number_of r };

    fn from(r: Refusal) -> u8 {
        match r {
            Refusal::TooLong => 1,
            Refusal::Cut => 2,
            Refusal::Format => 3,
            Refusal::EntryCount => 4,
            Refusal::ImportCount => 4,
            Refusal::VariableCount => 4,
            Refusal::HeaderBits => 4,
            Refusal::TableLimits => 4,
            Refusal::Initial => 5,
            Refusal::Kind => 6,
            Refusal::Operand => 7,
            Refusal::Sort => 8,
            Refusal::Padding => 9,
            Refusal::Label => 10,
            Refusal::LeftOver => 11,
            Refusal::NoRoom => 12,
            Refusal::Range => 13,
            Refusal::StepCut => 21,
            Refusal::Time => 22,
            Refusal::StepImport => 23,
            Refusal::ImportOrder => 24,
            Refusal::ConditionReport => 25,
            Refusal::StepPadding => 26,
            Refusal::StepLeftOver => 27,
            Refusal::Unsound => 29,
            Refusal::NoEntry => 30,
        }
    }
}
