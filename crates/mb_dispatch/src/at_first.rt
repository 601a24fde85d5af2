//! A call with the first of some items, beside the others.
ghost use Rattle.std.specs.Prelude.{◌≡◌, MatchOption, length};
ghost use Rattle.mb_dispatch.specs.AtFirst.{LeavesBoth, MayCall, WasCalled};

/// Calls this with the first item and the others, if there is any item, and gives its answer. All are as they were afterwards.
pub(crate) fn at_first<T, F: FnMut(&mut T, &mut [T]) -> bool>(
    items: &mut [T],
    call: &mut F,
) -> Option<bool>
    requires may { MayCall F.FnMut call.old items.old }
    requires leaves { LeavesBoth F.FnMut call.old }
    ensures same { items.new ≡ items.old }
    ensures called { MatchOption result ((length items.old ≡ 0) × (call.new ≡ call.old))
        (λ answer. WasCalled F.FnMut call.old items.old answer call.new) }
{
    let Some((first, others)) = items.split_first_mut() else {
        return None;
    };
    Some(call(first, others))
}
