// A set of intervals as a number, with a bit for each one's number.
ghost use Rattle.std.specs.Prelude.{◌≡◌};
ghost use Rattle.intervals.specs.Sets.{has, without};

pub fn in_set(set: u32, number: u8) -> bool
    ensures { result ≡ has set number }
{
    if number > 31 {
        return false;
    }
    (set >> number) % 2 == 1
}

pub fn take_out(set: u32, number: u8) -> u32
    ensures { result ≡ without number set }
{
    if in_set(set, number) {
        return set - (1 << number);
    }
    set
}
