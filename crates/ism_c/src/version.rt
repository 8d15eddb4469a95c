// Which library this is. Both numbers are also in include/ism.h, which says what raises them.
ghost use Rattle.std.specs.Prelude.{◌≡◌};
ghost use Rattle.ism.specs.Version.{version_number};

#[unsafe(no_mangle)]
pub extern "C" fn ism_version() -> u32
    ensures { result ≡ version_number 0 15 1 }
{
    ism::version::ism_version()
}

// Its name is what counts: a program asks the linker for the interface that it was compiled against.
#[unsafe(no_mangle)]
pub extern "C" fn ism_interface_9() -> u32
    ensures { result ≡ 9 }
{
    ism::version::ism_interface_9()
}
