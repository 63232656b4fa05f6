//! The ELF64 object file format, as far as the loader reads it: where the fields stand and what they say
//! (ELF64, "ELF Header" and "Program Header"; RISC-V ELF psABI, "File Header").
//! An offset counts bytes from where the header begins; `specs/Fields.antt` has each field's width.

/// The bytes of the ELF header.
pub const ELF_HEADER_BYTES: u128 = 64;

/// The bytes of a program header.
pub const PROGRAM_HEADER_BYTES: u16 = 56;

/// The offset of the four bytes that each ELF file begins with.
pub const EI_MAG: usize = 0;

/// The offset of the class, one byte.
pub const EI_CLASS: usize = 4;

/// The offset of the byte order, one byte.
pub const EI_DATA: usize = 5;

/// The offset of the format's version, one byte.
pub const EI_VERSION: usize = 6;

/// The offset of the file's type.
pub const E_TYPE: usize = 16;

/// The offset of the machine.
pub const E_MACHINE: usize = 18;

/// The offset of the address of the first instruction.
pub const E_ENTRY: usize = 24;

/// The offset of the place of the program header table in the file.
pub const E_PHOFF: usize = 32;

/// The offset of the machine's flags.
pub const E_FLAGS: usize = 48;

/// The offset of the size of a program header.
pub const E_PHENTSIZE: usize = 54;

/// The offset of the number of program headers.
pub const E_PHNUM: usize = 56;

/// The offset of the segment's type in a program header.
pub const P_TYPE: usize = 0;

/// The offset of the segment's flags.
pub const P_FLAGS: usize = 4;

/// The offset of the place of the segment's bytes in the file.
pub const P_OFFSET: usize = 8;

/// The offset of the segment's address.
pub const P_VADDR: usize = 16;

/// The offset of the segment's size in the file.
pub const P_FILESZ: usize = 32;

/// The offset of the segment's size in memory.
pub const P_MEMSZ: usize = 40;

/// The bytes 7F 45 4C 46, read as a little-endian number.
pub const ELFMAG: u32 = 0x464C_457F;

/// The class of files with 64-bit addresses.
pub const ELFCLASS64: u8 = 2;

/// The little-endian byte order.
pub const ELFDATA2LSB: u8 = 1;

/// The format's only version.
pub const EV_CURRENT: u8 = 1;

/// The type of an executable file whose addresses are fixed.
pub const ET_EXEC: u16 = 2;

/// The machine RISC-V.
pub const EM_RISCV: u16 = 243;

/// The place of the bit EF_RISCV_RVC, which says that there are compressed instructions.
pub const EF_RISCV_RVC_BIT: u32 = 0;

/// The type of a loadable segment.
pub const PT_LOAD: u32 = 1;

/// The type of a segment that names an interpreter.
pub const PT_INTERP: u32 = 3;

/// The place of the bit PF_X: the segment can be executed.
pub const PF_X_BIT: u32 = 0;

/// The place of the bit PF_W: the segment can be written.
pub const PF_W_BIT: u32 = 1;

/// The place of the bit PF_R: the segment can be read.
pub const PF_R_BIT: u32 = 2;
