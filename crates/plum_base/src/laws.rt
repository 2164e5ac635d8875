//! What holds of the areas of any targets, for whoever calls its function.

ghost use Rattle.plum_base.specs.Sites.{KnownAreasStay, NewAreasComeLast};

/// What one target more does to the areas.
pub fn areas_come_in_order()
    ensures known { KnownAreasStay }
    ensures other { NewAreasComeLast }
{}
