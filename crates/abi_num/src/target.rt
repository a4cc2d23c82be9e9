ghost use Rattle.std.specs.Prelude.{◌≡◌, IsTrue};

/// The platform that a layout is for: byte order, and sizes and alignments in bytes.
#[derive(Debug, Clone, Copy, PartialEq, Eq)]
pub struct Target {
    /// Whether the least significant byte comes first.
    pub little: bool,
    /// Size and alignment of a pointer, in bytes.
    pub pointer: u64,
    /// Alignment of `u64`, in bytes.
    pub u64_align: u64,
    /// Alignment of `u128`, in bytes.
    pub u128_align: u64,
}

impl Target {
    ghost use Rattle.abi_num.specs.Target.{named, is_row, arch_info};

    /// The supported target of that name; `None` exactly where no target has it.
    pub fn named(name: &str) -> Option<Target>
        ensures { result ≡ named name.now }
    {
        match name {
            "le64" => Some(row(true, 8, 8, 16)),
            "le64o" => Some(row(true, 8, 8, 8)),
            "be64" => Some(row(false, 8, 8, 16)),
            "le32" => Some(row(true, 4, 8, 16)),
            "le32o" => Some(row(true, 4, 4, 16)),
            "be32" => Some(row(false, 4, 8, 8)),
            "le16" => Some(row(true, 2, 4, 8)),
            _ => None,
        }
    }

    /// Whether the four fields are those of a supported target.
    pub fn is_row(&self) -> bool
        ensures { result ≡ is_row self.now }
    {
        matches!(
            (self.little, self.pointer, self.u64_align, self.u128_align),
            (true, 8, 8, 16)
                | (true, 8, 8, 8)
                | (false, 8, 8, 16)
                | (true, 4, 8, 16)
                | (true, 4, 4, 16)
                | (false, 4, 8, 8)
                | (true, 2, 4, 8)
        )
    }

    /// The eight bytes that tell this target's architecture; the target must be a supported one.
    pub fn arch_info(&self) -> [u8; 8]
        requires { IsTrue (is_row self.now) }
        ensures { result ≡ arch_info self.now }
    {
        let pointer = self.pointer as u8;
        let big = if self.little { 0 } else { 1 };
        let u128_align = self.u128_align as u8;
        [0, pointer, pointer, pointer, pointer, u128_align, big, 0]
    }
}

fn row(little: bool, pointer: u64, u64_align: u64, u128_align: u64) -> Target
    ensures little { result.little ≡ little }
    ensures pointer { result.pointer ≡ pointer }
    ensures u64_align { result.u64_align ≡ u64_align }
    ensures u128_align { result.u128_align ≡ u128_align }
{
    Target {
        little,
        pointer,
        u64_align,
        u128_align,
    }
}

#[cfg(test)]
mod tests {
    use super::*;

    #[test]
    fn the_architecture_bytes_of_le64_and_be32(rt: HostRuntime) {
        let le64 = row(true, 8, 8, 16);
        assert!(rt; le64.is_row());
        assert_eq!(rt; le64.arch_info(), [0, 8, 8, 8, 8, 16, 0, 0]);
        let be32 = row(false, 4, 8, 8);
        assert!(rt; be32.is_row());
        assert_eq!(rt; be32.arch_info(), [0, 4, 4, 4, 4, 8, 1, 0]);
    }
}
