//! Which parameters survive the end of a program.
ghost use Rattle.std.specs.Prelude.{◌≡◌};
ghost use Rattle.std.specs.List.{list_any};
ghost use Rattle.ng_params.specs.Lasting.{is_of, lasts};

/// The first parameter of each point that lasts: both homes, the G92 offset, the nine origins.
const POINTS: [u16; 12] = [
    5161, 5181, 5211, 5221, 5241, 5261, 5281, 5301, 5321, 5341, 5361, 5381,
];

/// Whether a parameter belongs to the point that starts at `first`.
fn is_of(first: u16, number: u16) -> bool
    ensures { result ≡ is_of first number }
{
    first <= number && number - first <= 2
}

/// Whether a parameter belongs to one of these points.
fn is_of_any(points: &[u16], number: u16) -> bool
    ensures { result ≡ list_any (λ first. is_of first number) points.now }
{
    points.iter().any(|first| is_of(*first, number))
}

/// Whether a parameter survives the end of a program.
pub(crate) fn lasts(number: u16) -> bool
    ensures { result ≡ lasts number }
{
    number == 5220 || is_of_any(&POINTS, number)
}
