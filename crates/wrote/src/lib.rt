// A write leaves sound records, in specs/, so that further writes can follow. There is no code here.
#![tactic(auto)]
