// The names of the inputs.
ghost use Rattle.std.specs.Prelude.{◌≡◌, ◌<◌, Some, length, map, slice_get};

/// The name of the input with a number, from 0.
pub(crate) fn name_at<'a>(names: &[&'a str], at: usize) -> &'a str
    requires { at < length names.now }
    ensures { slice_get (map (λ name. name.now) names.now) at ≡ Some result.now }
{
    names[at]
}
