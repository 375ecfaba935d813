// How far a slack goes.
ghost use Rattle.std.specs.Prelude.{◌≡◌, ◌+◌, ◌*◌, ◌<◌, ◌≤◌, ◌^◌, IfSome, IfNone};

/// How many steps of this weight the slack has, where that is less than the width.
pub(crate) fn room_in(width: u32, weight: u128, slack: u128) -> Option<u32>
    requires width { width ≤ 2 ^ 31 }
    requires weight { weight ≤ 2 ^ 63 }
    ensures none { IfNone result (weight * width ≤ slack) }
    ensures room { IfSome result (λ room. room < width) }
    ensures paid { IfSome result (λ room. weight * room ≤ slack) }
    ensures next { IfSome result (λ room. slack < weight * (room + 1)) }
{
    if weight * u128::from(width) <= slack {
        return None;
    }
    if slack < weight {
        return Some(0);
    }
    Some((slack / weight) as u32)
}

/// What so many steps of this weight leave of the slack.
pub(crate) fn left_after(steps: u32, weight: u128, slack: u128) -> u128
    requires { weight * steps ≤ slack }
    ensures { result + weight * steps ≡ slack }
{
    slack - weight * u128::from(steps)
}

/// By how much one step more than these exceeds the slack, beyond the least that it must.
pub(crate) fn spare_after(steps: u32, weight: u128, slack: u128) -> u128
    requires steps { steps < 2 ^ 31 }
    requires weight { weight ≤ 2 ^ 63 }
    requires exceeds { slack < weight * (steps + 1) }
    ensures { slack + result + 1 ≡ weight * (steps + 1) }
{
    weight * (u128::from(steps) + 1) - slack - 1
}
