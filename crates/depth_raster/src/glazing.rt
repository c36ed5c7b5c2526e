//! Glass over a colour.
ghost use Rattle.std.specs.Prelude.{◌≡◌};
ghost use Rattle.tri_cover.specs.Glass.{blend, blended};

/// Glass of an alpha over a colour, channel by channel.
pub(crate) fn blend(alpha: u8, glass: [u8; 3], under: [u8; 3]) -> [u8; 3]
    ensures { result ≡ blend alpha glass under }
{
    let [red, green, blue] = glass;
    let [under_red, under_green, under_blue] = under;
    [
        blended(alpha, red, under_red),
        blended(alpha, green, under_green),
        blended(alpha, blue, under_blue),
    ]
}

fn blended(alpha: u8, glass: u8, under: u8) -> u8
    ensures { result ≡ blended alpha glass under }
{
    ((u32::from(alpha) * u32::from(glass) + (255 - u32::from(alpha)) * u32::from(under))
        / 255) as u8
}
