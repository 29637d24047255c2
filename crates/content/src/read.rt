// The items of content bits.
ghost use Rattle.std.specs.Prelude.{◌≡◌, ◌+◌, ◌*◌, ◌≤◌, false, take, is_ok, IsErr};
ghost use Rattle.bits.specs.Outcome.{mapped};
ghost use Rattle.bits.specs.Bits.{all_zero};
ghost use Rattle.content.specs.Items.{first, items};
ghost use Rattle.content.specs.Content.{content};
ghost use Rattle.content.specs.Packing.{longest};
ghost use Rattle.content.specs.Halves.{bits_of, remaining};
ghost use Rattle.content.specs.Stored.{filled, listed};
ghost use Rattle.content.specs.Answers.{appended};
ghost use Rattle.content.specs.declared.read.Unread.TheVariants as unread;

use crate::content::Content;
use crate::items::Items;
use crate::rest::{Broken, Rest};

// Why bits do not read as items.
#[derive(Clone, Copy, Debug, PartialEq, Eq)]
pub enum Unread {
    // They are more than the longest content has.
    TooLong,
    // An item cannot be taken.
    Broken(Broken),
}

impl From<Broken> for Unread {
    ghost from_gives = { λ broken u. u ≡ unread.Broken broken };

    fn from(broken: Broken) -> Unread {
        Unread::Broken(broken)
    }
}

// Reads the items of the first `size` bits: too long if they are more than the longest content has; broken where bits of an item are missing and
// at label 15.
pub fn read(c: Content, size: usize) -> Result<Items, Unread>
    ensures { result ≡ mapped filled (content (take size (bits_of c))) }
{
    if Content::LONGEST < size {
        return Err(Unread::TooLong);
    }
    let mut items = Items::new();
    let mut rest = Rest {
        bits: c,
        left: size,
    };
    read_rest(&mut rest, &mut items);
    if rest.is_zero() {
        Ok(items)
    } else {
        Err(rest.take_item().unwrap_err().into())
    }
}

// Takes one item and then reads the rest after it: the items go after those found, and what is left is all zero or begins with no item.
// Nothing is answered, so that the compiler makes a loop of it.
fn read_rest(rest: &mut Rest, found: &mut Items)
    requires { (4 * found.old.count + rest.old.left ≤ longest) × (filled (listed found.old) ≡ found.old) }
    ensures same { appended (listed found.new) (items (remaining rest.new)) ≡ appended (listed found.old) (items (remaining rest.old)) }
    ensures kept { filled (listed found.new) ≡ found.new }
    ensures shorter { rest.new.left ≤ rest.old.left }
    ensures ended { all_zero (remaining rest.new) ≡ false → IsErr (first (remaining rest.new)) }
{
    if rest.is_zero() {
        return;
    }
    if let Ok(taken) = rest.take_item() {
        found.push(taken.item);
        *rest = taken.rest;
        read_rest(rest, found);
    }
}

// Whether the first `n` bits read as items.
pub fn reads(c: Content, n: usize) -> bool
    ensures { result ≡ is_ok (content (take n (bits_of c))) }
{
    read(c, n).is_ok()
}
