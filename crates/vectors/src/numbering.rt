// The number of each refusal.
use refusals::Refusal;
use std::io;

fn of_a_script(rt: &impl Print) -> io::Result<()> {
    rt.write_all(b"script:")?;
    for r in [
        Refusal::TooLong,
        Refusal::Cut,
        Refusal::Format,
        Refusal::EntryCount,
        Refusal::ImportCount,
        Refusal::VariableCount,
        Refusal::HeaderBits,
        Refusal::TableLimits,
        Refusal::Initial,
        Refusal::Kind,
        Refusal::Operand,
        Refusal::Sort,
        Refusal::Padding,
        Refusal::Label,
        Refusal::LeftOver,
        Refusal::NoRoom,
        Refusal::Range,
    ] {
        print!(rt; " {}", u8::from(r))?;
    }
    rt.write_all(b"\n")
}

fn of_a_step(rt: &impl Print) -> io::Result<()> {
    rt.write_all(b"step:")?;
    for r in [
        Refusal::StepCut,
        Refusal::Time,
        Refusal::StepImport,
        Refusal::ImportOrder,
        Refusal::ConditionReport,
        Refusal::StepPadding,
        Refusal::StepLeftOver,
        Refusal::Unsound,
        Refusal::NoEntry,
    ] {
        print!(rt; " {}", u8::from(r))?;
    }
    rt.write_all(b"\n")
}

pub fn all(rt: &impl Print) -> io::Result<()> {
    of_a_script(rt)?;
    of_a_step(rt)
}
