// Where the label of an entry, or the block of labels, stands in a script.
ghost use Rattle.std.specs.Prelude.{◌≡◌, length};
ghost use Rattle.door.specs.Leaving.{Leaves};
ghost use Rattle.door.specs.Labelling.{place_left, label_door, labels_door};

use crate::WRONG_SIZE;
use refusals::Refusal;
use script::Span;

// A part that was found: its first byte and its length; or the refusal's number.
fn show_place(answer: Result<(), Refusal>, span: Span, place: &mut [u64]) -> u8
    requires { length place.old ≡ 2 }
    ensures { Leaves (place_left answer span place.old) result place.new }
{
    match answer {
        Err(r) => u8::from(r),
        Ok(()) => {
            place[0] = span.from as u64;
            place[1] = span.size as u64;
            0
        }
    }
}

// Where the text of an entry's label stands: "refused (script numbers, then 30)".
pub fn nimbra_label(script: &[u8], entry: u64, place: &mut [u64]) -> u8
    ensures { Leaves (label_door script.now entry place.old) result place.new }
{
    if place.len() != 2 {
        return WRONG_SIZE;
    }
    let found = reader::find_label(script, entry as usize);
    show_place(found.answer, found.span, place)
}

// Where the block of labels stands, as `nimbra_write` takes it.
pub fn nimbra_labels(script: &[u8], place: &mut [u64]) -> u8
    ensures { Leaves (labels_door script.now place.old) result place.new }
{
    if place.len() != 2 {
        return WRONG_SIZE;
    }
    let scan = reader::scan_script(script, 0);
    show_place(scan.answer, scan.block, place)
}
