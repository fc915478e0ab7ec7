//! Lines of tables of known dates: numbers, and then a fixed day number, or why there is none.

use day_numbers::DateFault;

/// The numbers on a line, up to six words of it; `None` for a word that is no number, and where there is no word.
pub fn numbers(line: &str) -> [Option<i32>; 6] {
    let mut numbers = [None; 6];
    for (number, word) in numbers.iter_mut().zip(line.split_whitespace()) {
        *number = word.parse().ok();
    }
    numbers
}

/// The answer at the end of a line: the fixed day number where it is one, or the fault that the word stands for. There
/// is none where the line ends with another word.
pub fn answer(line: &str, number: Option<i32>) -> Option<Result<i64, DateFault>> {
    match number {
        Some(number) => Some(Ok(number as i64)),
        None if line.ends_with(" none") => Some(Err(DateFault::NoSuchDate)),
        None if line.ends_with(" out") => Some(Err(DateFault::OutOfRange)),
        None => None,
    }
}
