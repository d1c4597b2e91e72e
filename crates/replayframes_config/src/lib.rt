// The configuration's functions that programs in other languages link: numbers, and pointers with
// lengths. Each answers 0 or a reason; config_codes has the numbers of the reasons and of their places.
// Nothing is demanded of the caller beyond the types.
#![tactic(auto)]

ghost use Rattle.replayframes_config.specs.Configuration.{CheckCode, LoadCode};

use codes::RF_NO_TABLE;
use config::NotLoaded;

// Whether bytes are a configuration that is right: 0, and the number of machines in `first`; or a reason,
// with its places.
#[unsafe(no_mangle)]
pub extern "C" fn rf_config_check(
    bytes: &[u8],
    first: &mut usize,
    second: &mut usize,
    third: &mut usize,
    fourth: &mut usize,
) -> u32
    ensures { CheckCode bytes.now first.new second.new third.new fourth.new result }
{
    match config::check(bytes) {
        Ok(n) => {
            *first = n;
            *second = 0;
            *third = 0;
            *fourth = 0;
            0
        }
        Err(r) => {
            let four = config_codes::numbers_of(r);
            *first = four.first;
            *second = four.second;
            *third = four.third;
            *fourth = four.fourth;
            config_codes::code_of(r)
        }
    }
}

// Writes an accepted configuration into a table.
#[unsafe(no_mangle)]
pub extern "C" fn rf_config_load(bytes: &[u8], table: &mut [u64]) -> u32
    ensures { LoadCode bytes.now table.old table.new result }
{
    match config::load(bytes, table) {
        Ok(_) => 0,
        Err(NotLoaded::Refused(r)) => config_codes::code_of(r),
        Err(NotLoaded::NoTable) => RF_NO_TABLE,
    }
}
