//! What numbers an array's low and a semaphore's count may be.

ghost use Rattle.std.specs.Prelude.{◌≡◌, []};
ghost use Rattle.eval_objects.specs.Seen.{count_in};
ghost use Rattle.obj_region.specs.Store.{is_near as near, is_sound};
ghost use Rattle.obj_region.specs.declared.object.Obj.TheVariants as obj;

// The farthest from 0 that low and high may be.
const FARTHEST: i128 = 1 << 62;

fn is_near(index: i128) -> bool
    ensures { result ≡ near index }
{
    -FARTHEST <= index && index <= FARTHEST
}

/// Whether an empty array may have this low.
pub(crate) fn may_be_low(low: i64) -> bool
    ensures { result ≡ is_sound (obj.Arr low []) }
{
    is_near(low as i128) && is_near(low as i128 - 1)
}

/// The count of a semaphore, where it may be this one.
pub(crate) fn count_of(count: i64) -> Option<u64>
    ensures { result ≡ count_in count }
{
    if count < 0 || count > 1 << 62 {
        return None;
    }
    Some(count as u64)
}
