// Lines that are read and written back, and bytes that are none.
use derivation::{LineStop, read_line, write_line};
use std::alloc::Global;
use std::test::Fail;
use symbols::{Listed, Memory};

// Whether the text is read as a line, and written back as it was.
fn is_kept(alloc: Global, text: &str) -> Result<bool, Memory> {
    let line = match read_line(alloc, text.as_bytes()) {
        Ok(line) => line,
        Err(_) => return Ok(false),
    };
    let mut out = Listed::new(alloc);
    write_line(alloc, &line, &mut out)?;
    Ok(out.items().strip_suffix(b"\n") == Some(text.as_bytes()))
}

// Whether the text is no line.
fn is_bad(alloc: Global, text: &str) -> bool {
    matches!(read_line(alloc, text.as_bytes()), Err(LineStop::BadLine))
}

const WORKED: &str = "p clingcon 1 -1073741823 1073741823 1048576
r 2 b1 4 = a1
r 3 b1 1 ~a1 5 =
q none
m a1
m a2
r 7 ~b1 2 a2 9 = a1
r 4 ~b2 6 ~a2 10 ~a1 11 =
q all 2
p clingcon 1 0 1 1048576
s 1 = c1 v1>=1
s 2 = c2 v1<=0
r 5 v1>=1 6 c1 2 b1 1 c2 4 b2 3 =
m
q all 1
o -5 a1 v1=-3 v2=4";

const ENDS: &str = "p clingcon 1 0 0 1
p clingcon 1 -1073741823 1073741823 4194304
s 0 =
s 4294967295 = a4294967295 ~a4294967295 v4294967295<=1073741823 v4294967295>=1073741824
d 1 -9223372036854775807 -9223372036854775807 =
d 4294967295 9223372036854775807 9223372036854775807 = c1
g 1 w -9223372036854775807 9223372036854775807 =
g 1 p 1 1 =
g 4294967295 p 4294967295 4294967295 = v1<=-1073741824 v1>=-1073741823
u 1 =
u 1 2 4294967295 = a1
w 0 =
w 4294967295 = v1<=-1 v1>=0
r 1 =
r 18446744073709551615 v1<=0 18446744073709551615 =
m a1 a4294967295 v1=-2147483648 v4294967295=2147483647
o -170141183460469231731687303715884105728
o 170141183460469231731687303715884105727 v1=0
q all 18446744073709551615
q best -170141183460469231731687303715884105728";

const NUMBERS: &str = "
 q none
q none 
q  none
q\tnone
s  1 =
s 01 =
s +1 =
s -1 =
o -0
d 1 -0 1 =
s 1 = a0
s 1 = a01
s 4294967296 =
s 1 = v1>=-1073741824
s 1 = v1<=1073741824
s 1 = v1>=1073741825
d 1 -9223372036854775808 0 =
r 0 =
r 18446744073709551616 =
m v1=2147483648
q all 18446744073709551616
q best 170141183460469231731687303715884105728
u 0 =";

const FORMS: &str = "s 1
s 1 a1
s 1 = a2 a1
s 1 = b1 a1
s 1 = ~a1 a1
s 1 = a1 a1
s 1 = v1>=2 v1<=3
s 1 = v1<=2 v1<=3
s 1 = v1=2
s 1 = ~v1<=2
u = a1
u 2 1 =
u 1 1 =
r 1 a1 =
m v2=1 v1=1
m v1=1 a1
m a2 a1
o
o a1
p clingcon 1 1 0 1
p clingcon 2 0 1 1
p clingcon 1 0 1 4194305
k 1 =";

#[test]
fn lines_are_read_and_written_back(rt: HostRuntime) -> Result<(), Fail> {
    for texts in [WORKED, ENDS] {
        for text in texts.split('\n') {
            assert!(rt; is_kept(rt.alloc(), text)?, "{text}");
        }
    }
    Ok(())
}

#[test]
fn other_texts_are_refused(rt: HostRuntime) {
    for texts in [NUMBERS, FORMS] {
        for text in texts.split('\n') {
            assert!(rt; is_bad(rt.alloc(), text), "{text}");
        }
    }
}
