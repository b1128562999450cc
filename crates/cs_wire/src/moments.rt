//! Which texts are moments.
ghost use Rattle.std.specs.Prelude.{◌≡◌, ◌≤◌, ◌<◌, ◌^◌, length, true};
ghost use Rattle.std.specs.List.{list_all};
ghost use Rattle.cs_wire.specs.Moments.{is_digit, fits_byte, fits, has_form, and_digits};
ghost use Rattle.cs_wire.specs.Moments.{year, month, day, hour, minute, second, is_date, is_time};
ghost use Rattle.cs_wire.specs.Moments.{is_moment};

use jiff::civil::Date;

// In a pattern `d` stands for any digit, and any other byte for itself.
fn fits_byte(pattern: u8, byte: u8) -> bool
    ensures { result ≡ fits_byte pattern byte }
{
    if pattern == b'd' {
        b'0' <= byte && byte <= b'9'
    } else {
        pattern == byte
    }
}

fn fits(pattern: &[u8], bytes: &[u8]) -> bool
    ensures { result ≡ fits pattern.now bytes.now }
{
    if pattern.len() != bytes.len() {
        return false;
    }
    for (wanted, byte) in pattern.iter().zip(bytes) {
        if !fits_byte(*wanted, *byte) {
            return false;
        }
    }
    true
}

fn has_form(bytes: &[u8]) -> bool
    ensures { result ≡ has_form bytes.now }
{
    fits("dddd-dd-ddTdd:dd:ddZ".as_bytes(), bytes)
}

// The number that the digits are.
fn number(digits: &[u8]) -> u16
    requires few { length digits.now ≤ 4 }
    requires digits { list_all is_digit digits.now ≡ true }
    ensures value { result ≡ and_digits 0 digits.now }
    ensures bound { result < 10 ^ length digits.now }
{
    let mut number = 0;
    for digit in digits {
        number = 10 * number + u16::from(*digit - b'0');
    }
    number
}

// The calendar's word on a date.
fn is_date(year: u16, month: u16, day: u16) -> bool
    requires year_in { year ≤ 9999 }
    requires month_in { month ≤ 99 }
    requires day_in { day ≤ 99 }
    ensures { result ≡ is_date year month day }
{
    Date::new(year as i16, month as i8, day as i8).is_ok()
}

fn is_time(hour: u16, minute: u16, second: u16) -> bool
    ensures { result ≡ is_time hour minute second }
{
    hour <= 23 && minute <= 59 && second <= 59
}

fn has_date(bytes: &[u8]) -> bool
    requires form { has_form bytes.now ≡ true }
    ensures { result ≡ is_date (year bytes.now) (month bytes.now) (day bytes.now) }
{
    let year = number(&bytes[0..4]);
    let month = number(&bytes[5..7]);
    let day = number(&bytes[8..10]);
    is_date(year, month, day)
}

fn has_time(bytes: &[u8]) -> bool
    requires form { has_form bytes.now ≡ true }
    ensures { result ≡ is_time (hour bytes.now) (minute bytes.now) (second bytes.now) }
{
    let hour = number(&bytes[11..13]);
    let minute = number(&bytes[14..16]);
    let second = number(&bytes[17..19]);
    is_time(hour, minute, second)
}

/// Whether the text is a moment: RFC 3339's `2024-02-29T12:00:00Z`, in UTC and with whole seconds,
/// of a day that the calendar has. No leap second is one. Takes no memory.
pub fn is_moment(text: &str) -> bool
    ensures { result ≡ is_moment text.now }
{
    let bytes = text.as_bytes();
    has_form(bytes) && has_date(bytes) && has_time(bytes)
}
