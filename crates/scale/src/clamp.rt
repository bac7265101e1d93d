// A number held between two others.
ghost use Rattle.std.specs.Prelude.{◌≡◌};
ghost use Rattle.scale.specs.Steps.{between};

// n, or `most` where it is above that, or `least` where it is below that.
pub fn clamp(n: i32, least: i32, most: i32) -> i32
    ensures { result ≡ between least most n }
{
    if n > most {
        return most;
    }
    if n < least { least } else { n }
}
