//! A machine's settings, and the standard ones.
use ng_canon::Geometry;
use ng_num::Len;
use ng_offsets::Tools;

/// The settings of a machine (own).
#[derive(Drop)]
pub struct Settings {
    pub geometry: Geometry,
    pub tools: Tools,
}

impl Settings {
    ghost use Rattle.ng_settings.specs.Standard.{AreStandard};

    /// The default settings: the default machine, and a tool of 50 mm in slot 1.
    pub fn standard() -> Settings
        ensures { AreStandard result }
    {
        let mut tools = Tools::new();
        tools.push(Len::of_nm(50_000_000).unwrap());
        Settings {
            geometry: Geometry::standard(),
            tools,
        }
    }
}
