// A part of any size, of bytes whose parts can be counted by hand.
use crate::texts::part;

#[test]
fn a_part_of_any_size_stands(rt: HostRuntime) {
    let bytes = b"proc a_name_of_more_than_thirty_two_characters(x) { return x; }";
    let parts: [(u32, u32, &[u8]); 5] = [
        (5, 41, b"a_name_of_more_than_thirty_two_characters"),
        (52, 6, b"return"),
        (52, 4294967295, b"return x; }"),
        (63, 1, b""),
        (4294967295, 4294967295, b""),
    ];
    for (start, size, want) in parts {
        assert_eq!(rt; part(bytes, start, size), want, "from {start} on");
    }
}
