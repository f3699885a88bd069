// A plain AES-128, byte by byte on blocks of sixteen, that shares no code and no table with the proved one.
use std::array;

// Twice x in the field.
fn double(x: u8) -> u8 {
    if x < 128 {
        x * 2
    } else {
        ((x - 128) * 2) ^ 0x1b
    }
}

// A third of x in the field.
fn third(x: u8) -> u8 {
    let a = x ^ (x << 1);
    let b = a ^ (a << 2);
    let c = b ^ (b << 4);
    if c < 128 { c } else { c ^ 0x09 }
}

// x plus its four rotations, plus 63.
fn spread(x: u8) -> u8 {
    x ^ x.rotate_left(1) ^ x.rotate_left(2) ^ x.rotate_left(3) ^ x.rotate_left(4) ^ 0x63
}

// The S-box: the powers of three pass through every byte but zero, and those of a third through their inverses.
pub fn sub_table() -> [u8; 256] {
    let mut t = [0u8; 256];
    t[0] = 0x63;
    let mut p: u8 = 1;
    let mut q: u8 = 1;
    for _ in 0..255 {
        p ^= double(p);
        q = third(q);
        t[p as usize] = spread(q);
    }
    t
}

// The round key after one, with the round's constant: its first column from the last one's bytes, turned by one and substituted,
// each other column from the one before it.
fn next_key(t: &[u8; 256], key: &[u8; 16], constant: u8) -> [u8; 16] {
    let mut next = *key;
    next[0] ^= constant;
    for i in 0..4 {
        next[i] ^= t[key[12 + (i + 1) % 4] as usize];
    }
    for i in 4..16 {
        next[i] ^= next[i - 4];
    }
    next
}

// The key schedule: eleven round keys.
pub fn expand(t: &[u8; 256], key: [u8; 16]) -> [[u8; 16]; 11] {
    let mut keys = [key; 11];
    let mut constant: u8 = 1;
    for r in 1..11 {
        keys[r] = next_key(t, &keys[r - 1], constant);
        constant = double(constant);
    }
    keys
}

// A block plus a round key.
fn add_key(s: [u8; 16], key: &[u8; 16]) -> [u8; 16] {
    array::from_fn(|i| s[i] ^ key[i])
}

// The bytes substituted, and their rows shifted: a byte of row k comes from k columns on.
fn sub_shift(t: &[u8; 256], s: [u8; 16]) -> [u8; 16] {
    array::from_fn(|i| t[s[5 * i % 16] as usize])
}

// The columns mixed, byte by byte.
fn mix(s: [u8; 16]) -> [u8; 16] {
    array::from_fn(|i| {
        let top = i / 4 * 4;
        let all = s[top] ^ s[top + 1] ^ s[top + 2] ^ s[top + 3];
        s[i] ^ all ^ double(s[i] ^ s[top + (i + 1) % 4])
    })
}

// The block under a key schedule.
pub fn encrypt(t: &[u8; 256], keys: &[[u8; 16]; 11], block: [u8; 16]) -> [u8; 16] {
    let mut s = add_key(block, &keys[0]);
    for key in &keys[1..10] {
        s = add_key(mix(sub_shift(t, s)), key);
    }
    add_key(sub_shift(t, s), &keys[10])
}
