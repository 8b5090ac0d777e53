// The numbers of isize as questions and answers spell them.
pub fn read(s: &[u8]) -> Option<u64> {
    let r = promisebook_decimal::pb_isize_read_decimal(s, 0, s.len());
    r.ok.then_some(r.value.cast_unsigned() as u64)
}

// How many bytes are written.
pub fn write(out: &mut [u8], at: usize, bits: u64) -> usize {
    promisebook_decimal::pb_isize_write_decimal((bits as usize).cast_signed(), out, at).value
}
