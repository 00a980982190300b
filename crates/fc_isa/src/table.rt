//! The table of forms, by opcode.
use crate::insn::{AluOp, ByteOrder, LoadType, Relation, Size, Width};
use crate::shape::{Shape, SourceOperand};

macro_rules! alu {
    ($op:ident $width:ident $source:ident) => {
        Shape::Alu { op: AluOp::$op, width: Width::$width, source: SourceOperand::$source }
    };
}

macro_rules! jump {
    ($relation:ident $width:ident $source:ident) => {
        Shape::JumpIf { width: Width::$width, relation: Relation::$relation, source: SourceOperand::$source }
    };
}

macro_rules! load {
    ($size:ident) => {
        Shape::Load { loaded: LoadType::Unsigned(Size::$size) }
    };
}

/// The form of each opcode, in the order of the opcodes.
pub const SHAPES: [Shape; 256] = [
    Shape::Unknown, // 0x00
    Shape::Unknown, // 0x01
    Shape::Unknown, // 0x02
    Shape::Unknown, // 0x03
    alu!(Add W32 K), // 0x04
    Shape::JumpAlways, // 0x05
    Shape::JumpAlwaysLong, // 0x06
    alu!(Add W64 K), // 0x07
    Shape::Unknown, // 0x08
    Shape::Unknown, // 0x09
    Shape::Unknown, // 0x0a
    Shape::Unknown, // 0x0b
    alu!(Add W32 X), // 0x0c
    Shape::Unknown, // 0x0d
    Shape::Unknown, // 0x0e
    alu!(Add W64 X), // 0x0f
    Shape::Unknown, // 0x10
    Shape::Unknown, // 0x11
    Shape::Unknown, // 0x12
    Shape::Unknown, // 0x13
    alu!(Sub W32 K), // 0x14
    jump!(Eq W64 K), // 0x15
    jump!(Eq W32 K), // 0x16
    alu!(Sub W64 K), // 0x17
    Shape::LoadWide, // 0x18
    Shape::Unknown, // 0x19
    Shape::Unknown, // 0x1a
    Shape::Unknown, // 0x1b
    alu!(Sub W32 X), // 0x1c
    jump!(Eq W64 X), // 0x1d
    jump!(Eq W32 X), // 0x1e
    alu!(Sub W64 X), // 0x1f
    Shape::Unknown, // 0x20
    Shape::Unknown, // 0x21
    Shape::Unknown, // 0x22
    Shape::Unknown, // 0x23
    alu!(Mul W32 K), // 0x24
    jump!(Gt W64 K), // 0x25
    jump!(Gt W32 K), // 0x26
    alu!(Mul W64 K), // 0x27
    Shape::Unknown, // 0x28
    Shape::Unknown, // 0x29
    Shape::Unknown, // 0x2a
    Shape::Unknown, // 0x2b
    alu!(Mul W32 X), // 0x2c
    jump!(Gt W64 X), // 0x2d
    jump!(Gt W32 X), // 0x2e
    alu!(Mul W64 X), // 0x2f
    Shape::Unknown, // 0x30
    Shape::Unknown, // 0x31
    Shape::Unknown, // 0x32
    Shape::Unknown, // 0x33
    alu!(Div W32 K), // 0x34
    jump!(Ge W64 K), // 0x35
    jump!(Ge W32 K), // 0x36
    alu!(Div W64 K), // 0x37
    Shape::Unknown, // 0x38
    Shape::Unknown, // 0x39
    Shape::Unknown, // 0x3a
    Shape::Unknown, // 0x3b
    alu!(Div W32 X), // 0x3c
    jump!(Ge W64 X), // 0x3d
    jump!(Ge W32 X), // 0x3e
    alu!(Div W64 X), // 0x3f
    Shape::Unknown, // 0x40
    Shape::Unknown, // 0x41
    Shape::Unknown, // 0x42
    Shape::Unknown, // 0x43
    alu!(Or W32 K), // 0x44
    jump!(Set W64 K), // 0x45
    jump!(Set W32 K), // 0x46
    alu!(Or W64 K), // 0x47
    Shape::Unknown, // 0x48
    Shape::Unknown, // 0x49
    Shape::Unknown, // 0x4a
    Shape::Unknown, // 0x4b
    alu!(Or W32 X), // 0x4c
    jump!(Set W64 X), // 0x4d
    jump!(Set W32 X), // 0x4e
    alu!(Or W64 X), // 0x4f
    Shape::Unknown, // 0x50
    Shape::Unknown, // 0x51
    Shape::Unknown, // 0x52
    Shape::Unknown, // 0x53
    alu!(And W32 K), // 0x54
    jump!(Ne W64 K), // 0x55
    jump!(Ne W32 K), // 0x56
    alu!(And W64 K), // 0x57
    Shape::Unknown, // 0x58
    Shape::Unknown, // 0x59
    Shape::Unknown, // 0x5a
    Shape::Unknown, // 0x5b
    alu!(And W32 X), // 0x5c
    jump!(Ne W64 X), // 0x5d
    jump!(Ne W32 X), // 0x5e
    alu!(And W64 X), // 0x5f
    Shape::Unknown, // 0x60
    load!(Word), // 0x61
    Shape::StoreImm { size: Size::Word }, // 0x62
    Shape::Store { size: Size::Word }, // 0x63
    alu!(Lsh W32 K), // 0x64
    jump!(Sgt W64 K), // 0x65
    jump!(Sgt W32 K), // 0x66
    alu!(Lsh W64 K), // 0x67
    Shape::Unknown, // 0x68
    load!(HalfWord), // 0x69
    Shape::StoreImm {
        size: Size::HalfWord,
    }, // 0x6a
    Shape::Store {
        size: Size::HalfWord,
    }, // 0x6b
    alu!(Lsh W32 X), // 0x6c
    jump!(Sgt W64 X), // 0x6d
    jump!(Sgt W32 X), // 0x6e
    alu!(Lsh W64 X), // 0x6f
    Shape::Unknown, // 0x70
    load!(Byte), // 0x71
    Shape::StoreImm { size: Size::Byte }, // 0x72
    Shape::Store { size: Size::Byte }, // 0x73
    alu!(Rsh W32 K), // 0x74
    jump!(Sge W64 K), // 0x75
    jump!(Sge W32 K), // 0x76
    alu!(Rsh W64 K), // 0x77
    Shape::Unknown, // 0x78
    load!(DoubleWord), // 0x79
    Shape::StoreImm {
        size: Size::DoubleWord,
    }, // 0x7a
    Shape::Store {
        size: Size::DoubleWord,
    }, // 0x7b
    alu!(Rsh W32 X), // 0x7c
    jump!(Sge W64 X), // 0x7d
    jump!(Sge W32 X), // 0x7e
    alu!(Rsh W64 X), // 0x7f
    Shape::Unknown, // 0x80
    Shape::Load {
        loaded: LoadType::SignedWord,
    }, // 0x81
    Shape::Unknown, // 0x82
    Shape::Unknown, // 0x83
    Shape::Neg { width: Width::W32 }, // 0x84
    Shape::Call, // 0x85
    Shape::Unknown, // 0x86
    Shape::Neg { width: Width::W64 }, // 0x87
    Shape::Unknown, // 0x88
    Shape::Load {
        loaded: LoadType::SignedHalfWord,
    }, // 0x89
    Shape::Unknown, // 0x8a
    Shape::Unknown, // 0x8b
    Shape::Unknown, // 0x8c
    Shape::Unknown, // 0x8d
    Shape::Unknown, // 0x8e
    Shape::Unknown, // 0x8f
    Shape::Unknown, // 0x90
    Shape::Load {
        loaded: LoadType::SignedByte,
    }, // 0x91
    Shape::Unknown, // 0x92
    Shape::Unknown, // 0x93
    alu!(Mod W32 K), // 0x94
    Shape::Exit, // 0x95
    Shape::Unknown, // 0x96
    alu!(Mod W64 K), // 0x97
    Shape::Unknown, // 0x98
    Shape::Unknown, // 0x99
    Shape::Unknown, // 0x9a
    Shape::Unknown, // 0x9b
    alu!(Mod W32 X), // 0x9c
    Shape::Unknown, // 0x9d
    Shape::Unknown, // 0x9e
    alu!(Mod W64 X), // 0x9f
    Shape::Unknown, // 0xa0
    Shape::Unknown, // 0xa1
    Shape::Unknown, // 0xa2
    Shape::Unknown, // 0xa3
    alu!(Xor W32 K), // 0xa4
    jump!(Lt W64 K), // 0xa5
    jump!(Lt W32 K), // 0xa6
    alu!(Xor W64 K), // 0xa7
    Shape::Unknown, // 0xa8
    Shape::Unknown, // 0xa9
    Shape::Unknown, // 0xaa
    Shape::Unknown, // 0xab
    alu!(Xor W32 X), // 0xac
    jump!(Lt W64 X), // 0xad
    jump!(Lt W32 X), // 0xae
    alu!(Xor W64 X), // 0xaf
    Shape::Unknown, // 0xb0
    Shape::Unknown, // 0xb1
    Shape::Unknown, // 0xb2
    Shape::Unknown, // 0xb3
    alu!(Mov W32 K), // 0xb4
    jump!(Le W64 K), // 0xb5
    jump!(Le W32 K), // 0xb6
    alu!(Mov W64 K), // 0xb7
    Shape::Unknown, // 0xb8
    Shape::Unknown, // 0xb9
    Shape::Unknown, // 0xba
    Shape::Unknown, // 0xbb
    alu!(Mov W32 X), // 0xbc
    jump!(Le W64 X), // 0xbd
    jump!(Le W32 X), // 0xbe
    alu!(Mov W64 X), // 0xbf
    Shape::Unknown, // 0xc0
    Shape::Unknown, // 0xc1
    Shape::Unknown, // 0xc2
    Shape::Unknown, // 0xc3
    alu!(Arsh W32 K), // 0xc4
    jump!(Slt W64 K), // 0xc5
    jump!(Slt W32 K), // 0xc6
    alu!(Arsh W64 K), // 0xc7
    Shape::Unknown, // 0xc8
    Shape::Unknown, // 0xc9
    Shape::Unknown, // 0xca
    Shape::Unknown, // 0xcb
    alu!(Arsh W32 X), // 0xcc
    jump!(Slt W64 X), // 0xcd
    jump!(Slt W32 X), // 0xce
    alu!(Arsh W64 X), // 0xcf
    Shape::Unknown, // 0xd0
    Shape::Unknown, // 0xd1
    Shape::Unknown, // 0xd2
    Shape::Unknown, // 0xd3
    Shape::End {
        order: ByteOrder::Little,
    }, // 0xd4
    jump!(Sle W64 K), // 0xd5
    jump!(Sle W32 K), // 0xd6
    Shape::End {
        order: ByteOrder::Swapped,
    }, // 0xd7
    Shape::Unknown, // 0xd8
    Shape::Unknown, // 0xd9
    Shape::Unknown, // 0xda
    Shape::Unknown, // 0xdb
    Shape::End {
        order: ByteOrder::Big,
    }, // 0xdc
    jump!(Sle W64 X), // 0xdd
    jump!(Sle W32 X), // 0xde
    Shape::Unknown, // 0xdf
    Shape::Unknown, // 0xe0
    Shape::Unknown, // 0xe1
    Shape::Unknown, // 0xe2
    Shape::Unknown, // 0xe3
    Shape::Unknown, // 0xe4
    Shape::Unknown, // 0xe5
    Shape::Unknown, // 0xe6
    Shape::Unknown, // 0xe7
    Shape::Unknown, // 0xe8
    Shape::Unknown, // 0xe9
    Shape::Unknown, // 0xea
    Shape::Unknown, // 0xeb
    Shape::Unknown, // 0xec
    Shape::Unknown, // 0xed
    Shape::Unknown, // 0xee
    Shape::Unknown, // 0xef
    Shape::Unknown, // 0xf0
    Shape::Unknown, // 0xf1
    Shape::Unknown, // 0xf2
    Shape::Unknown, // 0xf3
    Shape::Unknown, // 0xf4
    Shape::Unknown, // 0xf5
    Shape::Unknown, // 0xf6
    Shape::Unknown, // 0xf7
    Shape::Unknown, // 0xf8
    Shape::Unknown, // 0xf9
    Shape::Unknown, // 0xfa
    Shape::Unknown, // 0xfb
    Shape::Unknown, // 0xfc
    Shape::Unknown, // 0xfd
    Shape::Unknown, // 0xfe
    Shape::Unknown, // 0xff
];
