// Numbers as words write them.
ghost use Rattle.std.specs.Prelude.{◌≡◌};
ghost use Rattle.hk_words.specs.Numbers.{number_in};

/// The number that one to ten digits write, if it lies in the range.
pub fn read_number(text: &str, least: u32, most: u32) -> Option<u32>
    ensures { result ≡ number_in least most text.now }
{
    let digits = text.as_bytes();
    if digits.is_empty() || digits.len() > 10 || !digits.iter().all(|b| b.is_ascii_digit()) {
        return None;
    }
    let number = text.parse::<u32>().ok()?;
    if least <= number && number <= most {
        Some(number)
    } else {
        None
    }
}
