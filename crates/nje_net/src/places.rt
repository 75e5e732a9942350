//! Items that are numbered from 1.
ghost use Rattle.std.specs.Prelude.{◌≡◌, []};
ghost use Rattle.nje_net.specs.Numbered.{item, numbered as numbered_lem};

use mas_types::List;

/// The item of that number.
pub fn numbered<T: Copy>(items: &List<T>, number: u32) -> Option<T>
    ensures { result ≡ numbered_lem number items.now }
{
    if number == 0 || number as usize > items.len() {
        return None;
    }
    Some(*items.item(number as usize - 1))
}

/// The item of that number, or the one given where there is none.
pub fn item_or<T: Copy>(items: &[T], number: u8, none: T) -> T
    ensures { result ≡ item none number items.now }
{
    if number == 0 || number as usize > items.len() {
        return none;
    }
    items[number as usize - 1]
}

/// The items of the list of that number, none where there is no such list.
pub fn items_of<T>(lists: &List<List<T>>, number: u8) -> &[T]
    ensures { result.now ≡ item [] number lists.now }
{
    if number == 0 || number as usize > lists.len() {
        return &[];
    }
    lists.item(number as usize - 1).as_slice()
}
