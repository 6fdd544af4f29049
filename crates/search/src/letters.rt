// A sheet's letters, as the walk has them.
ghost use Rattle.std.specs.Prelude.{◌≡◌, ℕ};
ghost use Rattle.paper.specs.Sheet.{sheet_of, letter};
ghost use Rattle.walk_state.specs.Letters.{has_letter};

use sheet::Sheet;
use walk_state::Letters;

pub fn letters_of(sheet: &Sheet) -> Letters
    ensures { (b : ℕ) → has_letter result.of b ≡ letter (sheet_of sheet.now.bytes.now) b }
{
    let mut l = Letters::none();
    for i in 0..sheet.letters.count {
        let o = sheet.letters.at + 2 * i;
        l = l.with(sheet.bytes[o], sheet.bytes[o + 1]);
    }
    l
}
