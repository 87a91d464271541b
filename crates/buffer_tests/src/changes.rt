// Changes of a buffer of four bytes.
use buffer::buffer::Buffer;

type Four = Buffer<4>;

// One change.
enum Step {
    New,
    Set(&'static [u8]),
    Extend(&'static [u8]),
    // a text goes in so many times
    Repeat(&'static [u8], u16),
    // a text goes in before the byte at an index, so many times
    Insert(usize, &'static [u8], u16),
    Clear,
    // the front of a memory
    Filled(usize),
    // a buffer made of bytes
    Made(&'static [u8]),
    // a closure fills the room lent with a byte, and answers
    Lend(u8, Option<usize>),
}

const MEMORY: [u8; 4] = [1, 2, 3, 4];

// The steps, whether each is done or else refused, and what the buffer has then.
const STEPS: [(Step, bool, &[u8]); 43] = [
    // a buffer takes bytes up to its size, and refuses one more with nothing altered
    (Step::New, true, b""),
    (Step::Set(b"abcd"), true, b"abcd"),
    (Step::Set(b"abcde"), false, b"abcd"),
    (Step::Extend(b"e"), false, b"abcd"),
    (Step::Extend(b""), true, b"abcd"),
    (Step::Set(b"xy"), true, b"xy"),
    (Step::Extend(b"zwv"), false, b"xy"),
    (Step::Extend(b"zw"), true, b"xyzw"),
    (Step::Clear, true, b""),
    // a text goes in so many times, all or none of it; how many bytes that are may be more than a size can say
    (Step::New, true, b""),
    (Step::Repeat(b"ab", 3), false, b""),
    (Step::Repeat(b"ab", 0), true, b""),
    (Step::Repeat(b"", 65535), true, b""),
    (Step::Repeat(b"ab", 2), true, b"abab"),
    (Step::Repeat(b"a", 65535), false, b"abab"),
    // a text goes in before the byte at an index, or at the end
    (Step::Made(b"ab"), true, b"ab"),
    (Step::Insert(0, b"x", 1), true, b"xab"),
    (Step::Made(b"ab"), true, b"ab"),
    (Step::Insert(1, b"x", 2), true, b"axxb"),
    (Step::Made(b"ab"), true, b"ab"),
    (Step::Insert(1, b"xy", 1), true, b"axyb"),
    (Step::Made(b"ab"), true, b"ab"),
    (Step::Insert(2, b"x", 2), true, b"abxx"),
    (Step::Made(b"ab"), true, b"ab"),
    (Step::Insert(1, b"x", 0), true, b"ab"),
    (Step::Made(b"ab"), true, b"ab"),
    (Step::Insert(1, b"", 9), true, b"ab"),
    (Step::Made(b"ab"), true, b"ab"),
    (Step::Insert(9, b"x", 1), true, b"abx"),
    (Step::Made(b"ab"), true, b"ab"),
    (Step::Insert(1, b"x", 3), false, b"ab"),
    (Step::Made(b"ab"), true, b"ab"),
    (Step::Insert(0, b"xyz", 1), false, b"ab"),
    // a buffer is made of the front of a memory, or of bytes that fit
    (Step::Filled(2), true, &[1, 2]),
    (Step::Filled(4), true, &MEMORY),
    (Step::Filled(9), true, &MEMORY),
    (Step::Made(b"abcd"), true, b"abcd"),
    (Step::Made(b"abcde"), false, b"abcd"),
    // a closure is given the room behind the bytes, and as many bytes of it stay as it answers, at most all; with no answer none stay
    (Step::New, true, b""),
    (Step::Set(b"a"), true, b"a"),
    (Step::Lend(b'x', None), true, b"a"),
    (Step::Lend(b'y', Some(2)), true, b"ayy"),
    (Step::Lend(b'z', Some(9)), true, b"ayyz"),
];

fn lends(buffer: &mut Four, byte: u8, answer: Option<usize>) -> bool {
    let told = buffer.extend_with(|room| {
        room.fill(byte);
        answer
    });
    told == answer
}

// Does a step, and tells whether it is done.
fn does(buffer: &mut Four, step: &Step) -> bool {
    match *step {
        Step::New => *buffer = Four::new(),
        Step::Set(bytes) => return buffer.set(bytes).is_ok(),
        Step::Extend(bytes) => return buffer.extend_from_slice(bytes).is_ok(),
        Step::Repeat(text, count) => return buffer.extend_repeated(text, count).is_ok(),
        Step::Insert(at, text, count) => return buffer.insert_repeated(at, text, count).is_ok(),
        Step::Clear => buffer.clear(),
        Step::Filled(len) => *buffer = Four::filled(MEMORY, len),
        Step::Made(bytes) => match Four::try_from(bytes) {
            Ok(made) => *buffer = made,
            Err(_) => return false,
        },
        Step::Lend(byte, answer) => return lends(buffer, byte, answer),
    }
    true
}

// Whether a step goes as it should.
fn holds(buffer: &mut Four, case: &(Step, bool, &[u8])) -> bool {
    let (step, done, bytes) = case;
    does(buffer, step) == *done && buffer.as_slice() == *bytes && buffer.len() == bytes.len()
}

#[test]
fn changes(rt: HostRuntime) {
    let mut buffer = Four::new();
    for (number, case) in STEPS.iter().enumerate() {
        assert!(rt; holds(&mut buffer, case), "step {number}");
    }
}
