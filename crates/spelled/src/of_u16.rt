// The numbers of u16 as questions and answers spell them.
pub fn read(s: &[u8]) -> Option<u64> {
    let r = promisebook_decimal::pb_u16_read_decimal(s, 0, s.len());
    r.ok.then_some(r.value as u64)
}

// How many bytes are written.
pub fn write(out: &mut [u8], at: usize, bits: u64) -> usize {
    promisebook_decimal::pb_u16_write_decimal(numbered::low16(bits), out, at).value
}
