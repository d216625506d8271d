// The law of what is assembled.
ghost use Rattle.dv_asm.specs.Tiles.{UnitsAreTiled, TilingIsItems};

/// The units of a draft are tiled by its instructions and payloads at their addresses, with the aligning nops.
pub fn units_are_items()
    ensures tiled { UnitsAreTiled }
    ensures tiling { TilingIsItems }
{}
