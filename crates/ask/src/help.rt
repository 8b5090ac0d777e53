// What `ask --help` says: how to ask, and every name with its arguments (written by generate/ from the table of operations).
use std::io;
use std::io::Write;

pub fn print<W: Write>(out: &mut W) -> io::Result<()> {
    how_to_ask(out)?;
    legend_of_integers(out)?;
    list_t(out)?;
    list_t_2(out)?;
    list_s(out)?;
    list_s_2(out)?;
    list_u(out)?;
    list_w(out)?;
    legend_of_bytes(out)?;
    list_bytes(out)?;
    list_text(out)
}

fn how_to_ask<W: Write>(out: &mut W) -> io::Result<()> {
    show::text(
        out,
        "Answers questions about the library's operations: one line for each line of standard input,\nor one line for the arguments.\n\n",
    )?;
    show::text(
        out,
        "    ask u8.wrapping_add 200 100      44\n    ask i8.checked_div -128 -1       refused\n    ask bytes.reverse 010203 0 2     020103\n\n",
    )?;
    show::text(
        out,
        "A question is a name and its arguments, with single spaces between. A number is decimal, bytes are\ntwo lowercase hex digits each, and - is no bytes. The answer is the value, or a word:\n\n",
    )?;
    show::text(
        out,
        "    refused      the operation refuses these arguments\n    unknown      there is no such name\n    malformed    the arguments are not those that the name takes\n",
    )
}

fn legend_of_integers<W: Write>(out: &mut W) -> io::Result<()> {
    show::text(
        out,
        "\nT: u8 u16 u32 u64 usize. S: i8 i16 i32 i64 isize. U: u8 u16 u32 u64. W: u16 u32 u64.\n",
    )?;
    show::text(
        out,
        "x, y: numbers of the type, y one of the other sign where the name ends in that sign. d: a u32. b: bytes.\nb f t, at: as below.\n\n",
    )
}

fn legend_of_bytes<W: Write>(out: &mut W) -> io::Result<()> {
    show::text(
        out,
        "\nb f t: bytes, and the part of them from place f up to and without place t.\n",
    )?;
    show::text(
        out,
        "a, at, e, i, m, n: numbers (usize); a, e, i and m are counted from f where there is one. v: a u8.\nc: a u32. other: bytes.\n\n",
    )
}

fn list_t<W: Write>(out: &mut W) -> io::Result<()> {
    show::text(out, "    T.wrapping_add x y\n")?;
    show::text(out, "    T.wrapping_add_signed x y\n")?;
    show::text(out, "    T.wrapping_sub x y\n")?;
    show::text(out, "    T.wrapping_mul x y\n")?;
    show::text(out, "    T.wrapping_shl x d\n")?;
    show::text(out, "    T.wrapping_shr x d\n")?;
    show::text(out, "    T.checked_add x y\n")?;
    show::text(out, "    T.checked_add_signed x y\n")?;
    show::text(out, "    T.checked_sub x y\n")?;
    show::text(out, "    T.checked_mul x y\n")?;
    show::text(out, "    T.checked_next_multiple_of x y\n")?;
    show::text(out, "    T.checked_div x y\n")?;
    show::text(out, "    T.checked_div_euclid x y\n")?;
    show::text(out, "    T.checked_rem x y\n")?;
    show::text(out, "    T.checked_rem_euclid x y\n")?;
    show::text(out, "    T.saturating_add x y\n")?;
    show::text(out, "    T.saturating_sub x y\n")?;
    show::text(out, "    T.saturating_mul x y\n")?;
    show::text(out, "    T.is_multiple_of x y\n")?;
    show::text(out, "    T.clone x\n")
}

fn list_t_2<W: Write>(out: &mut W) -> io::Result<()> {
    show::text(out, "    T.eq x y\n")?;
    show::text(out, "    T.ne x y\n")?;
    show::text(out, "    T.lt x y\n")?;
    show::text(out, "    T.le x y\n")?;
    show::text(out, "    T.gt x y\n")?;
    show::text(out, "    T.ge x y\n")?;
    show::text(out, "    T.cmp x y\n")?;
    show::text(out, "    T.compare x y\n")?;
    show::text(out, "    T.partial_cmp x y\n")?;
    show::text(out, "    T.read_decimal b f t\n")?;
    show::text(out, "    T.write_decimal b at x\n")
}

fn list_s<W: Write>(out: &mut W) -> io::Result<()> {
    show::text(out, "    S.wrapping_add x y\n")?;
    show::text(out, "    S.wrapping_add_unsigned x y\n")?;
    show::text(out, "    S.wrapping_sub x y\n")?;
    show::text(out, "    S.wrapping_mul x y\n")?;
    show::text(out, "    S.wrapping_shl x d\n")?;
    show::text(out, "    S.wrapping_shr x d\n")?;
    show::text(out, "    S.checked_add x y\n")?;
    show::text(out, "    S.checked_add_unsigned x y\n")?;
    show::text(out, "    S.checked_sub x y\n")?;
    show::text(out, "    S.checked_sub_unsigned x y\n")?;
    show::text(out, "    S.checked_mul x y\n")?;
    show::text(out, "    S.checked_div x y\n")?;
    show::text(out, "    S.checked_div_euclid x y\n")?;
    show::text(out, "    S.checked_rem x y\n")?;
    show::text(out, "    S.checked_rem_euclid x y\n")?;
    show::text(out, "    S.clone x\n")?;
    show::text(out, "    S.eq x y\n")?;
    show::text(out, "    S.ne x y\n")?;
    show::text(out, "    S.lt x y\n")?;
    show::text(out, "    S.le x y\n")
}

fn list_s_2<W: Write>(out: &mut W) -> io::Result<()> {
    show::text(out, "    S.gt x y\n")?;
    show::text(out, "    S.ge x y\n")?;
    show::text(out, "    S.cmp x y\n")?;
    show::text(out, "    S.compare x y\n")?;
    show::text(out, "    S.partial_cmp x y\n")?;
    show::text(out, "    S.read_decimal b f t\n")?;
    show::text(out, "    S.write_decimal b at x\n")
}

fn list_u<W: Write>(out: &mut W) -> io::Result<()> {
    show::text(out, "    U.leading_zeros x\n")?;
    show::text(out, "    U.leading_ones x\n")?;
    show::text(out, "    U.trailing_zeros x\n")?;
    show::text(out, "    U.trailing_ones x\n")
}

fn list_w<W: Write>(out: &mut W) -> io::Result<()> {
    show::text(out, "    W.from_le_bytes b\n")?;
    show::text(out, "    W.to_le_bytes x\n")?;
    show::text(out, "    W.from_be_bytes b\n")?;
    show::text(out, "    W.to_be_bytes x\n")
}

fn list_bytes<W: Write>(out: &mut W) -> io::Result<()> {
    show::text(out, "    bytes.len b f t\n")?;
    show::text(out, "    bytes.is_empty b f t\n")?;
    show::text(out, "    bytes.get b f t i\n")?;
    show::text(out, "    bytes.first b f t\n")?;
    show::text(out, "    bytes.last b f t\n")?;
    show::text(out, "    bytes.sub_range b f t a e\n")?;
    show::text(out, "    bytes.split_at b f t m\n")?;
    show::text(out, "    bytes.split_first b f t\n")?;
    show::text(out, "    bytes.next_piece b f t n\n")?;
    show::text(out, "    bytes.starts_with b f t other\n")?;
    show::text(out, "    bytes.ends_with b f t other\n")?;
    show::text(out, "    bytes.contains b f t v\n")?;
    show::text(out, "    bytes.equal b f t other\n")?;
    show::text(out, "    bytes.set b f t i v\n")?;
    show::text(out, "    bytes.reverse b f t\n")?;
    show::text(out, "    bytes.copy_from b f t other\n")?;
    show::text(out, "    bytes.copy_within b f t at\n")
}

fn list_text<W: Write>(out: &mut W) -> io::Result<()> {
    show::text(out, "    text.scalar_len c\n")?;
    show::text(out, "    text.is_white_space c\n")?;
    show::text(out, "    text.write b at c\n")?;
    show::text(out, "    text.read_first b f t\n")?;
    show::text(out, "    text.read_last b f t\n")?;
    show::text(out, "    text.valid b\n")?;
    show::text(out, "    text.count b\n")?;
    show::text(out, "    text.is_boundary b i\n")?;
    show::text(out, "    text.split_at b i\n")?;
    show::text(out, "    text.is_ascii b\n")?;
    show::text(out, "    text.valid_up_to b\n")
}
