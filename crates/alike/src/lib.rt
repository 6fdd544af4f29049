#![tactic(auto)]

// The slots of letters that no constraint of a sheet tells apart.
mod compare;
mod ranges;

ghost use Rattle.std.specs.Prelude.{◌≡◌, ◌<◌, length, IfSome};
ghost use Rattle.paper.specs.Sheet.{sheet_of};
ghost use Rattle.paper.specs.Opens.{opens};
ghost use Rattle.walk.specs.Progress.{Classes};
ghost use Rattle.alike.specs.Slots.{Letters, Without, Free, PlaceFor, Given};

use ranges::Entries;
use sheet::Sheet;
use walk::Slots;

// Every letter may have a slot, and no other byte.
fn letters(sheet: &Sheet) -> [bool; 256]
    ensures { Letters (sheet_of sheet.now.bytes.now) 256 result }
{
    let mut free = [false; 256];
    for (b, may) in free.iter_mut().enumerate() {
        *may = sheet.is_letter(b as u8);
    }
    free
}

// No byte of the text may.
fn without(mut free: [bool; 256], text: &[u8]) -> [bool; 256]
    ensures { Without text.now free result (length text.now) }
{
    for b in text {
        free[usize::from(*b)] = false;
    }
    free
}

// Which bytes may have a slot.
fn free(sheet: &Sheet) -> [bool; 256]
    ensures { Free (sheet_of sheet.now.bytes.now) result }
{
    without(letters(sheet), sheet.text)
}

// Whether a later byte would share a slot with b: a slot for one byte is of no use, though it would be right.
fn has_mate(ws: &Entries, free: &[bool; 256], b: usize) -> bool
    requires { b < 256 }
{
    (b + 1..256).any(|c| free[c] && ranges::same(ws, b, c))
}

// The place of an owner whose rows are those of b, or the first place with no owner if b has a mate.
fn place_for(ws: &Entries, free: &[bool; 256], owners: &[Option<u8>; 7], b: usize) -> Option<usize>
    requires { b < 256 }
    ensures { IfSome result (λ k. PlaceFor ws.now free.now owners.now b k) }
{
    if !free[b] {
        return None;
    }
    for (k, owner) in owners.iter().enumerate() {
        match *owner {
            Some(c) if ranges::same(ws, b, usize::from(c)) => return Some(k),
            Some(_) => {}
            None => return has_mate(ws, free, b).then_some(k),
        }
    }
    None
}

// Slots for the bytes that may have one, by their rows.
fn given(ws: &Entries, free: &[bool; 256]) -> Slots
    ensures { Given ws.now free.now result.of }
{
    let mut of = [0; 256];
    let mut owners = [None; 7];
    for b in 0..256 {
        if let Some(k) = place_for(ws, free, &owners, b) {
            of[b] = (k + 1) as u8;
            owners[k] = Some(b as u8);
        }
    }
    Slots { of }
}

// Where the sheet compares v with v no two letters are known to be alike.
pub fn slots_of(sheet: &Sheet) -> Slots
    ensures { Classes (opens (sheet_of sheet.now.bytes.now)) result.of }
{
    if compare::some_compares(sheet) {
        return Slots { of: [0; 256] };
    }
    let mut ws = [0; 1024];
    ranges::hold_rows(sheet, &mut ws);
    given(&ws, &free(sheet))
}
