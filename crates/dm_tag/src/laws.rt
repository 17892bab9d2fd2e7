ghost use Rattle.dm_tag.specs.Laws.{OneTag, OneRange, OneLength};

/// No value reads in two ways: the grammars of tags, content ranges and lengths are unambiguous.
pub fn one_reading()
    ensures tag { OneTag }
    ensures range { OneRange }
    ensures length { OneLength }
{}
