// Which library this is. Both numbers are also in include/ism.h, which says what raises them.
ghost use Rattle.std.specs.Prelude.{◌≡◌};
ghost use Rattle.ism.specs.Version.{version_number};

pub fn ism_version() -> u32
    ensures { result ≡ version_number 0 15 1 }
{
    1501
}

// Its name is what counts: a program asks the linker for the interface that it was compiled against.
pub fn ism_interface_9() -> u32
    ensures { result ≡ 9 }
{
    9
}
