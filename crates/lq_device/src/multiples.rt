//! The multiples of a number, found by counting down to the next one, so that no number is divided.
ghost use Rattle.std.specs.Prelude.{◌≡◌, ◌+◌, ℕ};
ghost use Rattle.lq_device.specs.Multiples.{left_to_multiple};
ghost use Rattle.lq_model.specs.Device.{is_multiple};

/// Whether the next number is a multiple, where so many are left to the next one.
pub fn is_multiple_next(left: u32) -> bool
    ensures { (number every : ℕ) → left ≡ left_to_multiple number every → result ≡ is_multiple (number + 1) every }
{
    left == 1
}

/// How many are left to the next multiple once one number more is counted.
pub fn left_after_one(left: u32, every: u32) -> u32
    ensures { (number : ℕ) → left ≡ left_to_multiple number every → result ≡ left_to_multiple (number + 1) every }
{
    if left > 1 { left - 1 } else { every }
}
