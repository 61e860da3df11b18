ghost use Rattle.std.specs.Prelude.{◌≡◌, set};

/// Writes a value at a place of a list. A place that the list does not have is passed over.
pub(crate) fn write<T: Copy>(list: &mut Vec<T>, at: u32, value: T)
    ensures { list.new.items ≡ set list.old.items at value }
{
    if list.len() <= at as usize {
        return;
    }
    list[at as usize] = value;
}
