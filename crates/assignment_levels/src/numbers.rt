// Numbers by record, read and written wherever the record is there.

/// No record.
pub const NONE: u32 = u32::MAX;

/// The number of a record, or 0 where there is no such record.
#[inline(always)]
pub(crate) fn at(numbers: &[u32], record: u32) -> u32 {
    if record as usize >= numbers.len() {
        return 0;
    }
    numbers[record as usize]
}

/// Puts the number of a record, if there is such a record.
#[inline(always)]
pub(crate) fn put(numbers: &mut [u32], record: u32, number: u32) {
    if (record as usize) < numbers.len() {
        numbers[record as usize] = number;
    }
}

/// Puts zeros at the end until there are so many numbers, within the room that was taken: where no proposal is asked for, that
/// memory is not touched.
pub(crate) fn fill_up(numbers: &mut Vec<u32>, count: u32) {
    for _ in numbers.len()..count as usize {
        if numbers.len() >= numbers.capacity() {
            return;
        }
        let Ok(()) = numbers.push(0) else {
            return;
        };
    }
}
