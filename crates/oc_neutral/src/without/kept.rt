//! Lists of which some stay.
ghost use Rattle.std.specs.Prelude.{◌≡◌, length};
ghost use Rattle.oc_linking.specs.Keeping.{kept_of};

/// Leaves those of the items whose flag is set, in their order. Linear in the items, no memory.
pub(crate) fn keep_only<T: Drop>(stay: &[bool], items: &mut Vec<T>)
    requires { length stay.now ≡ length items.old.items }
    ensures { items.new.items ≡ kept_of stay.now items.old.items }
{
    let mut left = 0;
    for at in 0..stay.len() {
        if stay[at] {
            items.swap(left, at);
            left += 1;
        }
    }
    items.truncate(left);
}
