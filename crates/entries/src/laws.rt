// The laws of the acts, each asked for here so that no check passes without its proof. Nothing is computed.
ghost use Rattle.entries.specs.Laws.{HowMany, NumbersThatStand, StaysBelow, StaysDistinct};
ghost use Rattle.entries.specs.Laws.{NothingNewAhead, OrderKept, RankNoWorse};
ghost use Rattle.entries.specs.Laws.{OthersUnchanged, WhatStands};

pub fn what_stands()
    ensures names { WhatStands }
    ensures entries { OthersUnchanged }
{}

pub fn numbers_that_stand()
    ensures which { NumbersThatStand }
    ensures distinct { StaysDistinct }
    ensures below { StaysBelow }
    ensures length { HowMany }
{}

pub fn rank_kept()
    ensures ahead { NothingNewAhead }
    ensures rank { RankNoWorse }
    ensures order { OrderKept }
{}
