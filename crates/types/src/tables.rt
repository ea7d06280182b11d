// The rows of the known names (row.rt): for each name the numbers of its first seven bytes, the next seven and the rest, the first byte
// the lowest digit, under a 1. The proof of a function that uses a table computes it from the names of document 01.

pub const ROOT: [u64; 9] = [
    0x016e_6f69_7372_6576, // version
    1,
    1,
    0x0175_6269_7274_7461, // attributes
    0x0173_6574,
    1,
    0x0173_7463_656a_626f, // objects
    1,
    1,
];

pub const OBJECT: [u64; 12] = [
    0x0165_7061_6873, // shape
    1,
    1,
    0x01_7461_6d72_6f66, // format
    1,
    1,
    0x0175_6269_7274_7461, // attributes
    0x0173_6574,
    1,
    0x0165_6e6f_706d_6f63, // components
    0x0173_746e,
    1,
];

pub const COMPONENT: [u64; 21] = [
    0x0165_7079_7464, // dtype
    1,
    1,
    0x01_6570_7974, // type
    1,
    1,
    0x01_7465_7366_666f, // offset
    1,
    1,
    0x01_6874_676e_656c, // length
    1,
    1,
    0x0172_706d_6f63_6e75, // uncompressed_length
    0x016c_5f64_6573_7365,
    0x0168_7467_6e65,
    0x016e_6964_6f63_6e65, // encoding
    0x0167,
    1,
    0x01_7473_6567_6964, // digest
    1,
    1,
];

pub const STORAGE: [u64; 39] = [
    0x0134_3666, // f64
    1,
    1,
    0x0132_3366, // f32
    1,
    1,
    0x0136_3166, // f16
    1,
    1,
    0x01_3631_6662, // bf16
    1,
    1,
    0x0134_3669, // i64
    1,
    1,
    0x0132_3369, // i32
    1,
    1,
    0x0136_3169, // i16
    1,
    1,
    0x01_3869, // i8
    1,
    1,
    0x0134_3675, // u64
    1,
    1,
    0x0132_3375, // u32
    1,
    1,
    0x0136_3175, // u16
    1,
    1,
    0x01_3875, // u8
    1,
    1,
    0x01_6c6f_6f62, // bool
    1,
    1,
];

pub const LOGICAL: [u64; 18] = [
    0x0133_6d34_655f_3866, // f8_e4m3fn
    0x01_6e66,
    1,
    0x0132_6d35_655f_3866, // f8_e5m2
    1,
    1,
    0x0133_6d34_655f_3866, // f8_e4m3fnuz
    0x01_7a75_6e66,
    1,
    0x0132_6d35_655f_3866, // f8_e5m2fnuz
    0x01_7a75_6e66,
    1,
    0x0178_656c_706d_6f63, // complex64
    0x01_3436,
    1,
    0x0178_656c_706d_6f63, // complex128
    0x0138_3231,
    1,
];

pub const FORMAT: [u64; 12] = [
    0x0165_736e_6564, // dense
    1,
    1,
    0x015f_6573_7261_7073, // sparse_csr
    0x0172_7363,
    1,
    0x015f_6573_7261_7073, // sparse_coo
    0x016f_6f63,
    1,
    0x017a_6974_6e61_7571, // quantized_group
    0x0175_6f72_675f_6465,
    0x0170,
];

pub const ROLE: [u64; 24] = [
    0x01_6174_6164, // data
    1,
    1,
    0x01_7365_756c_6176, // values
    1,
    1,
    0x0173_6563_6964_6e69, // indices
    1,
    1,
    0x01_7274_7064_6e69, // indptr
    1,
    1,
    0x01_7364_726f_6f63, // coords
    1,
    1,
    0x015f_6465_6b63_6170, // packed_weight
    0x01_7468_6769_6577,
    1,
    0x01_7365_6c61_6373, // scales
    1,
    1,
    0x0173_6f72_657a, // zeros
    1,
    1,
];

pub const RAW: [u64; 3] = [
    0x0177_6172, // raw
    1,
    1,
];

// The width of each storage: a hexadecimal digit for each code, the lowest for 0.
pub const WIDTH: u64 = 0x1_1248_1248_2248;

// In the same way the storage that each logical type needs, and its ratio.
pub const NEEDS: u64 = 0x01_bbbb;

pub const RATIO: u64 = 0x22_1111;

// Layout 1.0: its names, and for an object and a component the place of each, the lowest digit for the first name and the highest for none.
pub const OLD_ROOT: [u64; 9] = [
    0x016e_6f69_7372_6576, // version
    1,
    1,
    0x0175_6269_7274_7461, // attributes
    0x0173_6574,
    1,
    0x0173_726f_736e_6574, // tensors
    1,
    1,
];

pub const OLD_OBJECT: [u64; 12] = [
    0x0165_7079_7464, // dtype
    1,
    1,
    0x0165_7061_6873, // shape
    1,
    1,
    0x01_7461_6d72_6f66, // format
    1,
    1,
    0x0165_6e6f_706d_6f63, // components
    0x0173_746e,
    1,
];

pub const OLD_OBJECT_PLACES: u64 = 0x5_4210;

pub const OLD_COMPONENT: [u64; 12] = [
    0x01_7465_7366_666f, // offset
    1,
    1,
    0x01_6874_676e_656c, // length
    1,
    1,
    0x016e_6964_6f63_6e65, // encoding
    0x0167,
    1,
    0x01_7473_6567_6964, // digest
    1,
    1,
];

pub const OLD_COMPONENT_PLACES: u64 = 0x7_6532;

pub const OLD_STORAGE: [u64; 39] = [
    0x0134_3674_616f_6c66, // float64
    1,
    1,
    0x0132_3374_616f_6c66, // float32
    1,
    1,
    0x0136_3174_616f_6c66, // float16
    1,
    1,
    0x0131_7461_6f6c_6662, // bfloat16
    0x0136,
    1,
    0x0134_3674_6e69, // int64
    1,
    1,
    0x0132_3374_6e69, // int32
    1,
    1,
    0x0136_3174_6e69, // int16
    1,
    1,
    0x01_3874_6e69, // int8
    1,
    1,
    0x01_3436_746e_6975, // uint64
    1,
    1,
    0x01_3233_746e_6975, // uint32
    1,
    1,
    0x01_3631_746e_6975, // uint16
    1,
    1,
    0x0138_746e_6975, // uint8
    1,
    1,
    0x01_6c6f_6f62, // bool
    1,
    1,
];
