// By which numbers a caller finds out that it was built against another header.
ghost use Rattle.std.specs.Prelude.{◌≡◌};
ghost use Rattle.channel_c_layout.specs.Version.{interface_version, channel_size};

#[unsafe(no_mangle)]
pub extern "C" fn gibsumac_version() -> u64
    ensures { result ≡ interface_version }
{
    3
}

// In bytes.
#[unsafe(no_mangle)]
pub extern "C" fn gibsumac_channel_size() -> usize
    ensures { result ≡ channel_size }
{
    1968
}
