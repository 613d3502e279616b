// Cases A, I and J of 01: their files and the requests on them, the modules that the files mean, and what `report` prints (specs/).
#![tactic(auto)]
