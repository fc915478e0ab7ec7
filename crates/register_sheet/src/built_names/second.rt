//! The second third of the built-in list of names: names.csv, from which check/built-names writes this file.

/// The second third of the list.
pub const NAMES: &str = "\
einunddreißigste,31,\neinunddreißigsten,31,\neinunddreißigster,31,\neinunddreyßigste,31,\neinunddreyßigsten,31,\ne\
inunddreyßigster,31,\nein und dreißigste,31,\nein und dreißigsten,31,\nein und dreißigster,31,\nein und dreyßigste\
,31,\nein und dreyßigsten,31,\nein und dreyßigster,31,\neinhundert,100,\neinhundert und,100,\nein hundert,100,\nein h\
undert und,100,\nhundert,100,\nhundert und,100,\nzweihundert,200,\nzweihundert und,200,\nzwei hundert,200,\nzwei hunder\
t und,200,\nzweyhundert,200,\nzweyhundert und,200,\nzwey hundert,200,\nzwey hundert und,200,\ndreihundert,300,\ndreihun\
dert und,300,\ndrei hundert,300,\ndrei hundert und,300,\ndreyhundert,300,\ndreyhundert und,300,\ndrey hundert,300,\ndre\
y hundert und,300,\nvierhundert,400,\nvierhundert und,400,\nvier hundert,400,\nvier hundert und,400,\nfünfhundert,500,\
\nfünfhundert und,500,\nfünf hundert,500,\nfünf hundert und,500,\nsechshundert,600,\nsechshundert und,600,\nsechs hu\
ndert,600,\nsechs hundert und,600,\nsiebenhundert,700,\nsiebenhundert und,700,\nsieben hundert,700,\nsieben hundert und\
,700,\nachthundert,800,\nachthundert und,800,\nacht hundert,800,\nacht hundert und,800,\nneunhundert,900,\nneunhundert \
und,900,\nneun hundert,900,\nneun hundert und,900,\nelfhundert,1100,\nelfhundert und,1100,\nelf hundert,1100,\nelf hund\
ert und,1100,\nzwölfhundert,1200,\nzwölfhundert und,1200,\nzwölf hundert,1200,\nzwölf hundert und,1200,\ndreizehnhu\
ndert,1300,\ndreizehnhundert und,1300,\ndreizehn hundert,1300,\ndreizehn hundert und,1300,\ndreyzehnhundert,1300,\ndrey\
zehnhundert und,1300,\ndreyzehn hundert,1300,\ndreyzehn hundert und,1300,\nvierzehnhundert,1400,\nvierzehnhundert und,1\
400,\nvierzehn hundert,1400,\nvierzehn hundert und,1400,\nfünfzehnhundert,1500,\nfünfzehnhundert und,1500,\nfünfzeh\
n hundert,1500,\nfünfzehn hundert und,1500,\nsechzehnhundert,1600,\nsechzehnhundert und,1600,\nsechzehn hundert,1600,\
\nsechzehn hundert und,1600,\nsiebzehnhundert,1700,\nsiebzehnhundert und,1700,\nsiebzehn hundert,1700,\nsiebzehn hunder\
t und,1700,\nachtzehnhundert,1800,\nachtzehnhundert und,1800,\nachtzehn hundert,1800,\nachtzehn hundert und,1800,\nneun\
zehnhundert,1900,\nneunzehnhundert und,1900,\nneunzehn hundert,1900,\nneunzehn hundert und,1900,\ntausend,1000,\ntausen\
d und,1000,\neintausend,1000,\neintausend und,1000,\nein tausend,1000,\nein tausend und,1000,\nzweitausend,2000,\nzweit\
ausend und,2000,\nzwei tausend,2000,\nzwei tausend und,2000,\nMontag,weekday 1,\nDienstag,weekday 2,\nMittwoch,weekday \
3,\nDonnerstag,weekday 4,\nFreitag,weekday 5,\nSamstag,weekday 6,\nSonnabend,weekday 6,\nSonntag,weekday 0,\nMo,weekda\
y 1,\nDi,weekday 2,gregorian julian coptic ethiopic egyptian armenian islamic hebrew french republican\nMi,weekday 3,gr\
egorian julian coptic ethiopic egyptian armenian islamic hebrew french republican\nDo,weekday 4,\nFr,weekday 5,\nSa,wee\
kday 6,\nSo,weekday 0,\nMonday,weekday 1,\nTuesday,weekday 2,\nWednesday,weekday 3,\nThursday,weekday 4,\nFriday,weekda\
y 5,\nSaturday,weekday 6,\nSunday,weekday 0,\nMon,weekday 1,\nTue,weekday 2,\nTues,weekday 2,\nWed,weekday 3,\nThu,week\
day 4,\nThur,weekday 4,\nThurs,weekday 4,\nFri,weekday 5,\nSat,weekday 6,\nSun,weekday 0,\nlundi,weekday 1,\nmardi,week\
day 2,\nmercredi,weekday 3,\njeudi,weekday 4,\nvendredi,weekday 5,\nsamedi,weekday 6,\ndimanche,weekday 0,\nlun,weekda\
y 1,\nmer,weekday 3,\njeu,weekday 4,\nven,weekday 5,\nsam,weekday 6,\ndim,weekday 0,\nmaandag,weekday 1,\ndinsdag,weekd\
ay 2,\nwoensdag,weekday 3,\ndonderdag,weekday 4,\nvrijdag,weekday 5,\nzaterdag,weekday 6,\nzondag,weekday 0,\nma,weekda\
y 1,\nwo,weekday 3,\nvr,weekday 5,\nza,weekday 6,\nzo,weekday 0,\nlunedì,weekday 1,\nmartedì,weekday 2,\nmercoledì,w\
eekday 3,\ngiovedì,weekday 4,\nvenerdì,weekday 5,\nsabato,weekday 6,\ndomenica,weekday 0,\nlunes,weekday 1,\nmartes,w\
eekday 2,\nmiércoles,weekday 3,\njueves,weekday 4,\nviernes,weekday 5,\nsábado,weekday 6,\ndomingo,weekday 0,\nponied\
ziałek,weekday 1,\nwtorek,weekday 2,\nśroda,weekday 3,\nczwartek,weekday 4,\npiątek,weekday 5,\nsobota,weekday 6,\nn\
iedziela,weekday 0,\npondělí,weekday 1,\núterý,weekday 2,\nstředa,weekday 3,\nčtvrtek,weekday 4,\npátek,weekday \
5,\nneděle,weekday 0,\ndies Lunae,weekday 1,\ndies Martis,weekday 2,\ndies Mercurii,weekday 3,\ndies Iovis,weekday 4,\
\ndies Jovis,weekday 4,\ndies Veneris,weekday 5,\ndies Saturni,weekday 6,\ndies Sabbati,weekday 6,\ndies Dominica,weekd\
ay 0,\nsøndag,weekday 0,\nmandag,weekday 1,\ntirsdag,weekday 2,\nonsdag,weekday 3,\ntorsdag,weekday 4,\nfredag,weekda\
y 5,\nlørdag,weekday 6,\nsöndag,weekday 0,\nmåndag,weekday 1,\ntisdag,weekday 2,\nlördag,weekday 6,\nsunnuntai,week\
day 0,\nmaanantai,weekday 1,\ntiistai,weekday 2,\nkeskiviikko,weekday 3,\ntorstai,weekday 4,\nperjantai,weekday 5,\nlau\
antai,weekday 6,\nvasárnap,weekday 0,\nhétfő,weekday 1,\nkedd,weekday 2,\nszerda,weekday 3,\ncsütörtök,weekday 4,\
\npéntek,weekday 5,\nszombat,weekday 6,\nsegunda-feira,weekday 1,\nterça-feira,weekday 2,\nquarta-feira,weekday 3,\nq\
uinta-feira,weekday 4,\nsexta-feira,weekday 5,\nвоскресенье,weekday 0,\nпонедельник,weekday 1,\n\
вторник,weekday 2,\nсреда,weekday 3,\nчетверг,weekday 4,\nпятница,weekday 5,\nсуббота,\
weekday 6,\nнеділя,weekday 0,\nпонеділок,weekday 1,\nвівторок,weekday 2,\nсереда,weekday 3\
,\nчетвер,weekday 4,\nпʼятниця,weekday 5,\nсубота,weekday 6,\nΚυριακή,weekday 0,\nΔευτέ\
ρα,weekday 1,\nΤρίτη,weekday 2,\nΤετάρτη,weekday 3,\nΠέμπτη,weekday 4,\nΠαρασκευή,weekday \
5,\nΣάββατο,weekday 6,\nPazar,weekday 0,\nPazartesi,weekday 1,\nSalı,weekday 2,\nÇarşamba,weekday 3,\nPerşem\
be,weekday 4,\nCuma,weekday 5,\nCumartesi,weekday 6,\nSonntags,weekday 0,\nSontag,weekday 0,\ndies dominicus,weekday 0,\
\ndie Dominica,weekday 0,\ndie Dominico,weekday 0,\ndominico die,weekday 0,\nMontags,weekday 1,\nMondtag,weekday 1,\ndi\
e Lunae,weekday 1,\ndie Lune,weekday 1,\nDienstags,weekday 2,\nDinstag,weekday 2,\nDinstags,weekday 2,\nErchtag,weekda\
y 2,\nErtag,weekday 2,\nZinstag,weekday 2,\nZistag,weekday 2,\ndie Martis,weekday 2,\nMittwochs,weekday 3,\nMitwoch,wee\
kday 3,\nMittichen,weekday 3,\ndie Mercurii,weekday 3,\nDonnerstags,weekday 4,\nDornstag,weekday 4,\nPfinztag,weekday 4\
,\ndie Jovis,weekday 4,\ndie Iovis,weekday 4,\nFreitags,weekday 5,\nFreytag,weekday 5,\nFreytags,weekday 5,\ndie Veneri\
s,weekday 5,\nSamstags,weekday 6,\nSonnabends,weekday 6,\nSambstag,weekday 6,\ndie Sabbati,weekday 6,\ndie Saturni,week\
day 6,\ndie Sabbato,weekday 6,\nSonnabent,weekday 6,\ndominica,weekday 0,\ndom,weekday 0,\nferia secunda,weekday 1,\nfe\
ria 2,weekday 1,\nferia tertia,weekday 2,\nferia tercia,weekday 2,\nferia 3,weekday 2,\nferia quarta,weekday 3,\nferia \
4,weekday 3,\nferia quinta,weekday 4,\nferia 5,weekday 4,\nferia sexta,weekday 5,\nferia 6,weekday 5,\nsabbato,weekday \
6,\nsabbatum,weekday 6,\nprimidi,decade 1,french republican\nduodi,decade 2,french republican\ntridi,decade 3,french re\
publican\nquartidi,decade 4,french republican\nquintidi,decade 5,french republican\nsextidi,decade 6,french republican\
\nseptidi,decade 7,french republican\noctidi,decade 8,french republican\nnonidi,decade 9,french republican\ndécadi,dec\
ade 10,french republican\ndecadi,decade 10,french republican\nday after,morrow,gregorian julian\nTag nach,morrow,gregor\
ian julian\nTags nach,morrow,gregorian julian\njour après,morrow,gregorian julian\nlendemain de,morrow,gregorian julia\
n\ndie post,morrow,gregorian julian\ndies post,morrow,gregorian julian\nday before,eve,gregorian julian\nTag vor,eve,gr\
egorian julian\nTags vor,eve,gregorian julian\njour avant,eve,gregorian julian\ndie ante,eve,gregorian julian\ndies ant\
e,eve,gregorian julian\nin profesto,eve,gregorian julian\nafter,after,gregorian julian coptic ethiopic egyptian armenia\
n islamic hebrew french republican\nnach,after,gregorian julian coptic ethiopic egyptian armenian islamic hebrew frenc\
h republican\npost,after,gregorian julian coptic ethiopic egyptian armenian islamic hebrew french republican\np,after,g\
regorian julian\naprès,after,gregorian julian coptic ethiopic egyptian armenian islamic hebrew french republican\nbefo\
re,before,gregorian julian coptic ethiopic egyptian armenian islamic hebrew french republican\nvor,before,gregorian jul\
ian coptic ethiopic egyptian armenian islamic hebrew french republican\nante,before,gregorian julian coptic ethiopic eg\
yptian armenian islamic hebrew french republican\navant,before,gregorian julian coptic ethiopic egyptian armenian islam\
ic hebrew french republican\nbef,before,gregorian julian coptic ethiopic egyptian armenian islamic hebrew french republ\
ican\nvoor,before,gregorian julian coptic ethiopic egyptian armenian islamic hebrew french republican\nprima di,before,\
gregorian julian coptic ethiopic egyptian armenian islamic hebrew french republican\nantes de,before,gregorian julian c\
optic ethiopic egyptian armenian islamic hebrew french republican\nprzed,before,gregorian julian coptic ethiopic egypti\
an armenian islamic hebrew french republican\npřed,before,gregorian julian coptic ethiopic egyptian armenian islamic h\
ebrew french republican\nперед,before,gregorian julian coptic ethiopic egyptian armenian islamic hebrew french rep\
ublican\nраньше,before,gregorian julian coptic ethiopic egyptian armenian islamic hebrew french republican\nπρ\
ιν από,before,gregorian julian coptic ethiopic egyptian armenian islamic hebrew french republican\nπριν,before\
,gregorian julian coptic ethiopic egyptian armenian islamic hebrew french republican\nennen,before,gregorian julian cop\
tic ethiopic egyptian armenian islamic hebrew french republican\nföre,before,gregorian julian coptic ethiopic egyptia\
n armenian islamic hebrew french republican\nfør,before,gregorian julian coptic ethiopic egyptian armenian islamic heb\
rew french republican\naft,after,gregorian julian coptic ethiopic egyptian armenian islamic hebrew french republican\nn\
a,after,gregorian julian coptic ethiopic egyptian armenian islamic hebrew french republican\ndopo,after,gregorian julia\
n coptic ethiopic egyptian armenian islamic hebrew french republican\ndespués de,after,gregorian julian coptic ethiopi\
c egyptian armenian islamic hebrew french republican\npo,after,gregorian julian coptic ethiopic egyptian armenian islam\
ic hebrew french republican\nпосле,after,gregorian julian coptic ethiopic egyptian armenian islamic hebrew french \
republican\nпісля,after,gregorian julian coptic ethiopic egyptian armenian islamic hebrew french republican\nμε\
τά,after,gregorian julian coptic ethiopic egyptian armenian islamic hebrew french republican\nefter,after,gregorian j\
ulian coptic ethiopic egyptian armenian islamic hebrew french republican\netter,after,gregorian julian coptic ethiopic \
egyptian armenian islamic hebrew french republican\ndepois de,after,gregorian julian coptic ethiopic egyptian armenian \
islamic hebrew french republican\nca,about,gregorian julian coptic ethiopic egyptian armenian islamic hebrew french rep\
ublican\nc,about,gregorian julian coptic ethiopic egyptian armenian islamic hebrew french republican\ncirca,about,grego\
rian julian coptic ethiopic egyptian armenian islamic hebrew french republican\num,about,gregorian julian coptic ethiop\
ic egyptian armenian islamic hebrew french republican\ngegen,about,gregorian julian coptic ethiopic egyptian armenian i\
slamic hebrew french republican\netwa,about,gregorian julian coptic ethiopic egyptian armenian islamic hebrew french re\
publican\nabout,about,gregorian julian coptic ethiopic egyptian armenian islamic hebrew french republican\nabt,about,gr\
egorian julian coptic ethiopic egyptian armenian islamic hebrew french republican\nest,about,gregorian julian coptic et\
hiopic egyptian armenian islamic hebrew french republican\ncal,about,gregorian julian coptic ethiopic egyptian armenia\
n islamic hebrew french republican\nvers,about,gregorian julian coptic ethiopic egyptian armenian islamic hebrew frenc\
h republican\nenviron,about,gregorian julian coptic ethiopic egyptian armenian islamic hebrew french republican\nomstre\
eks,about,gregorian julian coptic ethiopic egyptian armenian islamic hebrew french republican\nongeveer,about,gregoria\
n julian coptic ethiopic egyptian armenian islamic hebrew french republican\nverso,about,gregorian julian coptic ethiop\
ic egyptian armenian islamic hebrew french republican\nhacia,about,gregorian julian coptic ethiopic egyptian armenian i\
slamic hebrew french republican\nokoło,about,gregorian julian coptic ethiopic egyptian armenian islamic hebrew french \
republican\nkolem,about,gregorian julian coptic ethiopic egyptian armenian islamic hebrew french republican\nasi,about,\
gregorian julian coptic ethiopic egyptian armenian islamic hebrew french republican\ncirciter,about,gregorian julian co\
ptic ethiopic egyptian armenian islamic hebrew french republican\nоколо,about,gregorian julian coptic ethiopic egy\
ptian armenian islamic hebrew french republican\nок,about,gregorian julian coptic ethiopic egyptian armenian islamic \
hebrew french republican\nпримерно,about,gregorian julian coptic ethiopic egyptian armenian islamic hebrew fren\
ch republican\nблизько,about,gregorian julian coptic ethiopic egyptian armenian islamic hebrew french republican\
\nбіля,about,gregorian julian coptic ethiopic egyptian armenian islamic hebrew french republican\nokolo,about,grego\
rian julian coptic ethiopic egyptian armenian islamic hebrew french republican\ncerca de,about,gregorian julian coptic \
ethiopic egyptian armenian islamic hebrew french republican\npor volta de,about,gregorian julian coptic ethiopic egypti\
an armenian islamic hebrew french republican\nalrededor de,about,gregorian julian coptic ethiopic egyptian armenian isl\
amic hebrew french republican\nyaklaşık,about,gregorian julian coptic ethiopic egyptian armenian islamic hebrew frenc\
h republican\nπερί,about,gregorian julian coptic ethiopic egyptian armenian islamic hebrew french republican\nπε\
ρίπου,about,gregorian julian coptic ethiopic egyptian armenian islamic hebrew french republican\nnoin,about,gregor\
ian julian coptic ethiopic egyptian armenian islamic hebrew french republican\nomkring,about,gregorian julian coptic et\
hiopic egyptian armenian islamic hebrew french republican\nkörülbelül,about,gregorian julian coptic ethiopic egyptia\
n armenian islamic hebrew french republican\nkb,about,gregorian julian coptic ethiopic egyptian armenian islamic hebre\
w french republican\nseit,from,gregorian julian coptic ethiopic egyptian armenian islamic hebrew french republican\nab,\
from,gregorian julian coptic ethiopic egyptian armenian islamic french republican\nfrom,from,gregorian julian coptic et\
hiopic egyptian armenian islamic hebrew french republican\nsince,from,gregorian julian coptic ethiopic egyptian armenia\
n islamic hebrew french republican\ndepuis,from,gregorian julian coptic ethiopic egyptian armenian islamic hebrew frenc\
h republican\nà partir de,from,gregorian julian coptic ethiopic egyptian armenian islamic hebrew french republican\nva\
naf,from,gregorian julian coptic ethiopic egyptian armenian islamic hebrew french republican\nsinds,from,gregorian juli\
an coptic ethiopic egyptian armenian islamic hebrew french republican\ndal,from,gregorian julian coptic ethiopic egypti\
an armenian islamic hebrew french republican\ndesde,from,gregorian julian coptic ethiopic egyptian armenian islamic heb\
rew french republican\nod,from,gregorian julian coptic ethiopic egyptian armenian islamic hebrew french republican\nnot\
Before,from,gregorian julian coptic ethiopic egyptian armenian islamic hebrew french republican\nnicht vor,from,gregori\
an julian coptic ethiopic egyptian armenian islamic hebrew french republican\nnot before,from,gregorian julian coptic e\
thiopic egyptian armenian islamic hebrew french republican\nс,from,gregorian julian coptic ethiopic egyptian armenian \
islamic hebrew french republican\nз,from,gregorian julian coptic ethiopic egyptian armenian islamic hebrew french repu\
blican\nвід,from,gregorian julian coptic ethiopic egyptian armenian islamic hebrew french republican\nαπό,from,gr\
egorian julian coptic ethiopic egyptian armenian islamic hebrew french republican\nfrån,from,gregorian julian coptic e\
thiopic egyptian armenian islamic hebrew french republican\na partir de,from,gregorian julian coptic ethiopic egyptian \
armenian islamic hebrew french republican\nbis,to,gregorian julian coptic ethiopic egyptian armenian islamic hebrew fre\
nch republican\nto,to,gregorian julian coptic ethiopic egyptian armenian islamic hebrew french republican\nuntil,to,gre\
gorian julian coptic ethiopic egyptian armenian islamic hebrew french republican\ntill,to,gregorian julian coptic ethio\
pic egyptian armenian islamic hebrew french republican\njusqu'à,to,gregorian julian coptic ethiopic egyptian armenian \
islamic hebrew french republican\njusqu’à,to,gregorian julian coptic ethiopic egyptian armenian islamic hebrew frenc\
h republican\nau,to,gregorian julian coptic ethiopic egyptian armenian islamic hebrew french republican\nà,to,gregoria\
n julian coptic ethiopic egyptian armenian islamic hebrew french republican\ntot,to,gregorian julian coptic ethiopic eg\
yptian armenian islamic hebrew french republican\ntot en met,to,gregorian julian coptic ethiopic egyptian armenian isla\
mic hebrew french republican\nfino a,to,gregorian julian coptic ethiopic egyptian armenian islamic hebrew french republ\
ican\nal,to,gregorian julian coptic ethiopic egyptian armenian islamic hebrew french republican\nhasta,to,gregorian jul\
ian coptic ethiopic egyptian armenian islamic hebrew french republican\nusque ad,to,gregorian julian coptic ethiopic eg\
yptian armenian islamic hebrew french republican\nnotAfter,to,gregorian julian coptic ethiopic egyptian armenian islami\
c hebrew french republican\nnicht nach,to,gregorian julian coptic ethiopic egyptian armenian islamic hebrew french repu\
blican\nnot after,to,gregorian julian coptic ethiopic egyptian armenian islamic hebrew french republican\nдо,to,grego\
rian julian coptic ethiopic egyptian armenian islamic hebrew french republican\nпо,to,gregorian julian coptic ethiopi\
c egyptian armenian islamic hebrew french republican\nέως,to,gregorian julian coptic ethiopic egyptian armenian isla\
mic hebrew french republican\nμέχρι,to,gregorian julian coptic ethiopic egyptian armenian islamic hebrew french re\
publican\naté,to,gregorian julian coptic ethiopic egyptian armenian islamic hebrew french republican\nzwischen,between\
,gregorian julian coptic ethiopic egyptian armenian islamic hebrew french republican\nzw,between,gregorian julian copti\
c ethiopic egyptian armenian islamic hebrew french republican\nbetween,between,gregorian julian coptic ethiopic egyptia\
n armenian islamic hebrew french republican\nbet,between,gregorian julian coptic ethiopic egyptian armenian islamic heb\
rew french republican\nentre,between,gregorian julian coptic ethiopic egyptian armenian islamic hebrew french republica\
n\ntussen,between,gregorian julian coptic ethiopic egyptian armenian islamic hebrew french republican\ntra,between,greg\
orian julian coptic ethiopic egyptian armenian islamic hebrew french republican\nfra,between,gregorian julian coptic et\
hiopic egyptian armenian islamic hebrew french republican\nmiędzy,between,gregorian julian coptic ethiopic egyptian ar\
menian islamic hebrew french republican\nmezi,between,gregorian julian coptic ethiopic egyptian armenian islamic hebre\
w french republican\ninter,between,gregorian julian coptic ethiopic egyptian armenian islamic hebrew french republican\
\nмежду,between,gregorian julian coptic ethiopic egyptian armenian islamic hebrew french republican\nміж,betwee\
n,gregorian julian coptic ethiopic egyptian armenian islamic hebrew french republican\nμεταξύ,between,gregorian j\
ulian coptic ethiopic egyptian armenian islamic hebrew french republican\nmellan,between,gregorian julian coptic ethiop\
ic egyptian armenian islamic hebrew french republican\nmellem,between,gregorian julian coptic ethiopic egyptian armenia\
n islamic hebrew french republican\nmellom,between,gregorian julian coptic ethiopic egyptian armenian islamic hebrew fr\
ench republican\nund,and,gregorian julian coptic ethiopic egyptian armenian islamic hebrew french republican\nu,and,gre\
gorian julian coptic ethiopic egyptian armenian islamic hebrew french republican\nand,and,gregorian julian coptic ethio\
pic egyptian armenian islamic hebrew french republican\net,and,gregorian julian coptic ethiopic egyptian armenian islam\
ic hebrew french republican\ned,and,gregorian julian coptic ethiopic egyptian armenian islamic hebrew french republican\
\ny,and,gregorian julian coptic ethiopic egyptian armenian islamic hebrew french republican\noraz,and,gregorian julian \
coptic ethiopic egyptian armenian islamic hebrew french republican\nи,and,gregorian julian coptic ethiopic egyptian ar\
menian islamic hebrew french republican\nі,and,gregorian julian coptic ethiopic egyptian armenian islamic hebrew frenc\
h republican\nта,and,gregorian julian coptic ethiopic egyptian armenian islamic hebrew french republican\nκαι,and,\
gregorian julian coptic ethiopic egyptian armenian islamic hebrew french republican\noch,and,gregorian julian coptic et\
hiopic egyptian armenian islamic hebrew french republican\nog,and,gregorian julian coptic ethiopic egyptian armenian is\
lamic hebrew french republican\nja,and,gregorian julian coptic ethiopic egyptian armenian islamic hebrew french republi\
can\no. D.,undated,gregorian julian coptic ethiopic egyptian armenian islamic hebrew french republican\no. J.,undated,g\
regorian julian coptic ethiopic egyptian armenian islamic hebrew french republican\nohne Datum,undated,gregorian julia\
n coptic ethiopic egyptian armenian islamic hebrew french republican\nohne Jahr,undated,gregorian julian coptic ethiopi\
c egyptian armenian islamic hebrew french republican\nohne Jahresangabe,undated,gregorian julian coptic ethiopic egypti\
an armenian islamic hebrew french republican\nohne Datierung,undated,gregorian julian coptic ethiopic egyptian armenia\
n islamic hebrew french republican\nundatiert,undated,gregorian julian coptic ethiopic egyptian armenian islamic hebre\
w french republican\nundat.,undated,gregorian julian coptic ethiopic egyptian armenian islamic hebrew french republican\
\nnicht datiert,undated,gregorian julian coptic ethiopic egyptian armenian islamic hebrew french republican\nn. d.,unda\
ted,gregorian julian coptic ethiopic egyptian armenian islamic hebrew french republican\nundated,undated,gregorian juli\
an coptic ethiopic egyptian armenian islamic hebrew french republican\nno date,undated,gregorian julian coptic ethiopi\
c egyptian armenian islamic hebrew french republican\nnot dated,undated,gregorian julian coptic ethiopic egyptian armen\
ian islamic hebrew french republican\nwithout date,undated,gregorian julian coptic ethiopic egyptian armenian islamic h\
ebrew french republican\nwithout a date,undated,gregorian julian coptic ethiopic egyptian armenian islamic hebrew frenc\
h republican\ns. d.,undated,gregorian julian coptic ethiopic egyptian armenian islamic hebrew french republican\ns. a.,\
undated,gregorian julian coptic ethiopic egyptian armenian islamic hebrew french republican\ns. l. n. d.,undated,gregor\
ian julian coptic ethiopic egyptian armenian islamic hebrew french republican\ns. l. s. d.,undated,gregorian julian cop\
tic ethiopic egyptian armenian islamic hebrew french republican\nsans date,undated,gregorian julian coptic ethiopic egy\
ptian armenian islamic hebrew french republican\nsans année,undated,gregorian julian coptic ethiopic egyptian armenia\
n islamic hebrew french republican\nnon daté,undated,gregorian julian coptic ethiopic egyptian armenian islamic hebre\
w french republican\nnon datée,undated,gregorian julian coptic ethiopic egyptian armenian islamic hebrew french republ\
ican\nnon date,undated,gregorian julian coptic ethiopic egyptian armenian islamic hebrew french republican\nsine dato,u\
ndated,gregorian julian coptic ethiopic egyptian armenian islamic hebrew french republican\nsine anno,undated,gregoria\
n julian coptic ethiopic egyptian armenian islamic hebrew french republican\nsine data,undated,gregorian julian coptic \
ethiopic egyptian armenian islamic hebrew french republican\nsin fecha,undated,gregorian julian coptic ethiopic egyptia\
n armenian islamic hebrew french republican\ns. f.,undated,gregorian julian coptic ethiopic egyptian armenian islamic h\
ebrew french republican\nsin data,undated,gregorian julian coptic ethiopic egyptian armenian islamic hebrew french repu\
blican\nsin año,undated,gregorian julian coptic ethiopic egyptian armenian islamic hebrew french republican\nsin ano,u\
ndated,gregorian julian coptic ethiopic egyptian armenian islamic hebrew french republican\nsem data,undated,gregorian \
julian coptic ethiopic egyptian armenian islamic hebrew french republican\nsem ano,undated,gregorian julian coptic ethi\
opic egyptian armenian islamic hebrew french republican\nsenza data,undated,gregorian julian coptic ethiopic egyptian a\
rmenian islamic hebrew french republican\nsenza anno,undated,gregorian julian coptic ethiopic egyptian armenian islami\
c hebrew french republican\nnon datato,undated,gregorian julian coptic ethiopic egyptian armenian islamic hebrew frenc\
h republican\nnon datata,undated,gregorian julian coptic ethiopic egyptian armenian islamic hebrew french republican\nz\
. d.,undated,gregorian julian coptic ethiopic egyptian armenian islamic hebrew french republican\nz. j.,undated,gregori\
an julian coptic ethiopic egyptian armenian islamic hebrew french republican\nzonder datum,undated,gregorian julian cop\
tic ethiopic egyptian armenian islamic hebrew french republican\nzonder jaar,undated,gregorian julian coptic ethiopic e\
gyptian armenian islamic hebrew french republican\nongedateerd,undated,gregorian julian coptic ethiopic egyptian armeni\
an islamic hebrew french republican\nbez daty,undated,gregorian julian coptic ethiopic egyptian armenian islamic hebre\
w french republican\nb. d.,undated,gregorian julian coptic ethiopic egyptian armenian islamic hebrew french republican\
\nbez roku,undated,gregorian julian coptic ethiopic egyptian armenian islamic hebrew french republican\nniedatowany,und\
ated,gregorian julian coptic ethiopic egyptian armenian islamic hebrew french republican\nniedatowane,undated,gregoria\
n julian coptic ethiopic egyptian armenian islamic hebrew french republican\nniedatowana,undated,gregorian julian copti\
c ethiopic egyptian armenian islamic hebrew french republican\nbez data,undated,gregorian julian coptic ethiopic egypti\
an armenian islamic hebrew french republican\nnedatováno,undated,gregorian julian coptic ethiopic egyptian armenian is\
lamic hebrew french republican\nnedatovano,undated,gregorian julian coptic ethiopic egyptian armenian islamic hebrew fr\
ench republican\nkeltezés nélkül,undated,gregorian julian coptic ethiopic egyptian armenian islamic hebrew french re\
publican\nkeltezetlen,undated,gregorian julian coptic ethiopic egyptian armenian islamic hebrew french republican\nk. n\
.,undated,gregorian julian coptic ethiopic egyptian armenian islamic hebrew french republican\né. n.,undated,gregoria\
n julian coptic ethiopic egyptian armenian islamic hebrew french republican\név nélkül,undated,gregorian julian copt\
ic ethiopic egyptian armenian islamic hebrew french republican\névszám nélkül,undated,gregorian julian coptic ethio\
pic egyptian armenian islamic hebrew french republican\ndátum nélkül,undated,gregorian julian coptic ethiopic egypti\
an armenian islamic hebrew french republican\nб. д.,undated,gregorian julian coptic ethiopic egyptian armenian islami\
c hebrew french republican\nб. г.,undated,gregorian julian coptic ethiopic egyptian armenian islamic hebrew french re\
publican\nбез даты,undated,gregorian julian coptic ethiopic egyptian armenian islamic hebrew french republican\n\
без года,undated,gregorian julian coptic ethiopic egyptian armenian islamic hebrew french republican\nбез ч\
исла и года,undated,gregorian julian coptic ethiopic egyptian armenian islamic hebrew french republican\nне\
датировано,undated,gregorian julian coptic ethiopic egyptian armenian islamic hebrew french republican\nне\
датированный,undated,gregorian julian coptic ethiopic egyptian armenian islamic hebrew french republican\n\
недатированная,undated,gregorian julian coptic ethiopic egyptian armenian islamic hebrew french republica\
n\nбез дати,undated,gregorian julian coptic ethiopic egyptian armenian islamic hebrew french republican\nбез \
року,undated,gregorian julian coptic ethiopic egyptian armenian islamic hebrew french republican\nнедатова\
но,undated,gregorian julian coptic ethiopic egyptian armenian islamic hebrew french republican\nu. å.,undated,gregor\
ian julian coptic ethiopic egyptian armenian islamic hebrew french republican\nutan år,undated,gregorian julian copti\
c ethiopic egyptian armenian islamic hebrew french republican\nutan datum,undated,gregorian julian coptic ethiopic egyp\
tian armenian islamic hebrew french republican\nodaterad,undated,gregorian julian coptic ethiopic egyptian armenian isl\
amic hebrew french republican\nodaterat,undated,gregorian julian coptic ethiopic egyptian armenian islamic hebrew frenc\
h republican\nodat.,undated,gregorian julian coptic ethiopic egyptian armenian islamic hebrew french republican\nodater\
ade,undated,gregorian julian coptic ethiopic egyptian armenian islamic hebrew french republican\nuden år,undated,grego\
rian julian coptic ethiopic egyptian armenian islamic hebrew french republican\nuden dato,undated,gregorian julian copt\
ic ethiopic egyptian armenian islamic hebrew french republican\nudateret,undated,gregorian julian coptic ethiopic egypt\
ian armenian islamic hebrew french republican\nuten år,undated,gregorian julian coptic ethiopic egyptian armenian isla\
mic hebrew french republican\nuten dato,undated,gregorian julian coptic ethiopic egyptian armenian islamic hebrew frenc\
h republican\nudatert,undated,gregorian julian coptic ethiopic egyptian armenian islamic hebrew french republican\npäi\
väämätön,undated,gregorian julian coptic ethiopic egyptian armenian islamic hebrew french republican\npäiväämät\
tä,undated,gregorian julian coptic ethiopic egyptian armenian islamic hebrew french republican\nilman päiväystä,und\
ated,gregorian julian coptic ethiopic egyptian armenian islamic hebrew french republican\ntarihsiz,undated,gregorian ju\
lian coptic ethiopic egyptian armenian islamic hebrew french republican\nχωρίς ημερομηνία,undated,gregor\
ian julian coptic ethiopic egyptian armenian islamic hebrew french republican\nχωρίς χρονολογία,undated,\
gregorian julian coptic ethiopic egyptian armenian islamic hebrew french republican\nαχρονολόγητο,undated,g\
regorian julian coptic ethiopic egyptian armenian islamic hebrew french republican\nἀχρονολόγητον,undated\
,gregorian julian coptic ethiopic egyptian armenian islamic hebrew french republican\nAdar,month 12-13,hebrew\neve of,e\
ve,gregorian julian\nvigilia,eve,gregorian julian\nin vigilia,eve,gregorian julian\nVigil,eve,gregorian julian\nVoraben\
d,eve,gregorian julian\nprofesto,eve,gregorian julian\nveille de,eve,gregorian julian\noctava,octave,gregorian julian\n\
in octava,octave,gregorian julian\nOktav,octave,gregorian julian\noctave of,octave,gregorian julian\nin crastino,morrow\
,gregorian julian\ncrastino,morrow,gregorian julian\nmorrow of,morrow,gregorian julian\nOstern,easter 0,gregorian julia\
n\nOstersonntag,easter 0,gregorian julian\nOstertag,easter 0,gregorian julian\nPascha,easter 0,gregorian julian\nPascha\
e,easter 0,gregorian julian\nPasche,easter 0,gregorian julian\nResurrectionis Domini,easter 0,gregorian julian\nEaster,\
easter 0,gregorian julian\nEaster Day,easter 0,gregorian julian\nEaster Sunday,easter 0,gregorian julian\nPâques,easte\
r 0,gregorian julian\nOstermontag,easter 1,gregorian julian\nEaster Monday,easter 1,gregorian julian\nlundi de Pâques,\
easter 1,gregorian julian\nOsterdienstag,easter 2,gregorian julian\nEaster Tuesday,easter 2,gregorian julian\nSeptuages\
ima,easter -63,gregorian julian\nSeptuagesimae,easter -63,gregorian julian\nSeptuagésime,easter -63,gregorian julian\n\
Circumdederunt,easter -63,gregorian julian\nSexagesima,easter -56,gregorian julian\nSexagesimae,easter -56,gregorian ju\
lian\nExsurge,easter -56,gregorian julian\nExurge,easter -56,gregorian julian\nQuinquagesima,easter -49,gregorian julia\
n\nQuinquagesimae,easter -49,gregorian julian\nEstomihi,easter -49,gregorian julian\nEsto mihi,easter -49,gregorian jul\
ian\nHerrenfastnacht,easter -49,gregorian julian\nFastnachtsdienstag,easter -47,gregorian julian\nShrove Tuesday,easte\
r -47,gregorian julian\nMardi gras,easter -47,gregorian julian\nAschermittwoch,easter -46,gregorian julian\ndies Cineru\
m,easter -46,gregorian julian\nCinerum,easter -46,gregorian julian\nAsh Wednesday,easter -46,gregorian julian\nmercred\
i des Cendres,easter -46,gregorian julian\nInvocavit,easter -42,gregorian julian\nInvocabit,easter -42,gregorian julian\
\nQuadragesima,easter -42,gregorian julian\nReminiscere,easter -35,gregorian julian\nOculi,easter -28,gregorian julian\
\nLaetare,easter -21,gregorian julian\nLetare,easter -21,gregorian julian\nLätare,easter -21,gregorian julian\nJudica,\
easter -14,gregorian julian\nIudica,easter -14,gregorian julian\nPalmarum,easter -7,gregorian julian\nPalmsonntag,easte\
r -7,gregorian julian\nPalm Sunday,easter -7,gregorian julian\ndimanche des Rameaux,easter -7,gregorian julian\nRameaux\
,easter -7,gregorian julian\nGründonnerstag,easter -3,gregorian julian\nCoena Domini,easter -3,gregorian julian\nCoena\
e Domini,easter -3,gregorian julian\nCene Domini,easter -3,gregorian julian\nMaundy Thursday,easter -3,gregorian julian\
\nJeudi saint,easter -3,gregorian julian\nKarfreitag,easter -2,gregorian julian\nCharfreitag,easter -2,gregorian julian\
\nParasceve,easter -2,gregorian julian\nGood Friday,easter -2,gregorian julian\nVendredi saint,easter -2,gregorian juli\
an\nKarsamstag,easter -1,gregorian julian\nSabbatum sanctum,easter -1,gregorian julian\nQuasimodogeniti,easter 7,gregor\
ian julian\nQuasi modo geniti,easter 7,gregorian julian\nQuasimodo,easter 7,gregorian julian\nLow Sunday,easter 7,grego\
rian julian\nMisericordias Domini,easter 14,gregorian julian\nMisericordia Domini,easter 14,gregorian julian\nJubilate,\
easter 21,gregorian julian\nIubilate,easter 21,gregorian julian\nCantate,easter 28,gregorian julian\nKantate,easter 28,\
gregorian julian\nRogate,easter 35,gregorian julian\nVocem jucunditatis,easter 35,gregorian julian\nRogation Sunday,eas\
ter 35,gregorian julian\nHimmelfahrt,easter 39,gregorian julian\nChristi Himmelfahrt,easter 39,gregorian julian\nAuffah\
rt,easter 39,gregorian julian\nAscensionis Domini,easter 39,gregorian julian\nAscensionis,easter 39,gregorian julian\nA\
scension Day,easter 39,gregorian julian\nAscension,easter 39,gregorian julian\nExaudi,easter 42,gregorian julian\nPfing\
sten,easter 49,gregorian julian\nPfingstsonntag,easter 49,gregorian julian\nPentecostes,easter 49,gregorian julian\nPen\
tecoste,easter 49,gregorian julian\nPentecost,easter 49,gregorian julian\nWhitsunday,easter 49,gregorian julian\nWhit S\
unday,easter 49,gregorian julian\nPentecôte,easter 49,gregorian julian\nPfingstmontag,easter 50,gregorian julian\nWhi\
t Monday,easter 50,gregorian julian\nTrinitatis,easter 56,gregorian julian\nTrin,easter 56,gregorian julian\nTrinity Su\
nday,easter 56,gregorian julian\nTrinity,easter 56,gregorian julian\nTrinité,easter 56,gregorian julian\nFronleichnam,\
easter 60,gregorian julian\nCorporis Christi,easter 60,gregorian julian\nCorpus Christi,easter 60,gregorian julian\nFê\
te-Dieu,easter 60,gregorian julian\nAdvent,sundays advent,gregorian julian\nAdventus,sundays advent,gregorian julian\nA\
dventus Domini,sundays advent,gregorian julian\nAdv,sundays advent,gregorian julian\nAdventssonntag,sundays advent,greg\
orian julian\nSunday in Advent,sundays advent,gregorian julian\ndimanche de l'Avent,sundays advent,gregorian julian\nFa\
stensonntag,sundays lent,gregorian julian\nQuadragesimae,sundays lent,gregorian julian\nSunday in Lent,sundays lent,gre\
gorian julian\nAd te levavi,sunday advent 1,gregorian julian\nPopulus Sion,sunday advent 2,gregorian julian\nGaudete,su\
nday advent 3,gregorian julian\nRorate,sunday advent 4,gregorian julian\nAdvent Sunday,sunday advent 1,gregorian julian\
\nNeujahr,feast 1-1,gregorian julian\nCircumcisionis Domini,feast 1-1,gregorian julian\nCircumcisionis,feast 1-1,gregor\
ian julian\nEpiphaniae,feast 1-6,gregorian julian\nEpiphanie,feast 1-6,gregorian julian\nEpiphanias,feast 1-6,gregoria\
n julian\nEpiph,feast 1-6,gregorian julian\nEpiphany,feast 1-6,gregorian julian\nTrium Regum,feast 1-6,gregorian julian\
\nDreikönig,feast 1-6,gregorian julian\nHeilige Drei Könige,feast 1-6,gregorian julian\nFabiani et Sebastiani,feast 1\
-20,gregorian julian\nAgnetis,feast 1-21,gregorian julian\nVincentii,feast 1-22,gregorian julian\nConversionis Pauli,fe\
ast 1-25,gregorian julian\nPauli Bekehrung,feast 1-25,gregorian julian\nLichtmess,feast 2-2,gregorian julian\nMariä Li\
chtmess,feast 2-2,gregorian julian\nPurificationis Mariae,feast 2-2,gregorian julian\nPurificationis,feast 2-2,gregoria\
n julian\nCandlemas,feast 2-2,gregorian julian\nChandeleur,feast 2-2,gregorian julian\nBlasii,feast 2-3,gregorian julia\
n\nAgathae,feast 2-5,gregorian julian\nValentini,feast 2-14,gregorian julian\nCathedra Petri,feast 2-22,gregorian julia\
n\nPetri Stuhlfeier,feast 2-22,gregorian julian\nMatthiae,feast 3-1 -5,gregorian julian\nMathie,feast 3-1 -5,gregorian \
julian\nGertrudis,feast 3-17,gregorian julian\nBenedicti,feast 3-21,gregorian julian\nAnnunciationis Mariae,feast 3-25,\
gregorian julian\nAnnuntiationis Mariae,feast 3-25,gregorian julian\nMariä Verkündigung,feast 3-25,gregorian julian\n\
Lady Day,feast 3-25,gregorian julian\nAnnonciation,feast 3-25,gregorian julian\nTiburtii et Valeriani,feast 4-14,gregor\
ian julian\nMarci,feast 4-25,gregorian julian\nPhilippi et Jacobi,feast 5-1,gregorian julian\nWalpurgis,feast 5-1,grego\
rian julian\nWalburgis,feast 5-1,gregorian julian\nInventionis crucis,feast 5-3,gregorian julian\nKreuzauffindung,feas\
t 5-3,gregorian julian\nUrbani,feast 5-25,gregorian julian\nViti,feast 6-15,gregorian julian\nJohannistag,feast 6-24,gr\
egorian julian\nJohannis Baptistae,feast 6-24,gregorian julian\nJohannis Baptiste,feast 6-24,gregorian julian\nNativita\
tis Johannis Baptistae,feast 6-24,gregorian julian\nMidsummer Day,feast 6-24,gregorian julian\nla Saint-Jean,feast 6-24\
,gregorian julian\nJohannis et Pauli,feast 6-26,gregorian julian\nPetri et Pauli,feast 6-29,gregorian julian\nPeter un\
d Paul,feast 6-29,gregorian julian\nVisitationis Mariae,feast 7-2,gregorian julian\nMariä Heimsuchung,feast 7-2,gregor\
ian julian\nKiliani,feast 7-8,gregorian julian\nDivisionis apostolorum,feast 7-15,gregorian julian\nMariae Magdalenae,f\
east 7-22,gregorian julian\nMarie Magdalene,feast 7-22,gregorian julian\nJacobi,feast 7-25,gregorian julian\nJakobi,fea\
st 7-25,gregorian julian\nAnnae,feast 7-26,gregorian julian\nPetri ad vincula,feast 8-1,gregorian julian\nPetri Kettenf\
eier,feast 8-1,gregorian julian\nLammas,feast 8-1,gregorian julian\nLaurentii,feast 8-10,gregorian julian\nAssumptioni\
s Mariae,feast 8-15,gregorian julian\nMariä Himmelfahrt,feast 8-15,gregorian julian\nAssomption,feast 8-15,gregorian j\
ulian\nBartholomaei,feast 8-24,gregorian julian\nBartholomäi,feast 8-24,gregorian julian\nBartholomei,feast 8-24,grego\
rian julian\nDecollationis Johannis,feast 8-29,gregorian julian\nAegidii,feast 9-1,gregorian julian\nEgidii,feast 9-1,g\
regorian julian\nNativitatis Mariae,feast 9-8,gregorian julian\nMariä Geburt,feast 9-8,gregorian julian\nExaltationis \
crucis,feast 9-14,gregorian julian\nKreuzerhöhung,feast 9-14,gregorian julian\nHoly Cross Day,feast 9-14,gregorian jul\
ian\nLamberti,feast 9-17,gregorian julian\nMatthaei,feast 9-21,gregorian julian\nMatthäi,feast 9-21,gregorian julian\n\
Mauritii,feast 9-22,gregorian julian\nMichaelis,feast 9-29,gregorian julian\nMichael,feast 9-29,gregorian julian\nMicha\
elmas,feast 9-29,gregorian julian\nSaint-Michel,feast 9-29,gregorian julian\nRemigii,feast 10-1,gregorian julian\nFranc\
isci,feast 10-4,gregorian julian\nDionysii,feast 10-9,gregorian julian\nGalli,feast 10-16,gregorian julian\nLucae,feas\
t 10-18,gregorian julian\nUndecim milium virginum,feast 10-21,gregorian julian\nCrispini et Crispiniani,feast 10-25,gre\
gorian julian\nSimonis et Judae,feast 10-28,gregorian julian\nSimonis et Jude,feast 10-28,gregorian julian\nAllerheilig\
en,feast 11-1,gregorian julian\nOmnium Sanctorum,feast 11-1,gregorian julian\nAll Saints,feast 11-1,gregorian julian\nT\
oussaint,feast 11-1,gregorian julian\nAllerseelen,feast 11-2,gregorian julian\nAnimarum,feast 11-2,gregorian julian\nAl\
l Souls,feast 11-2,gregorian julian\nLeonhardi,feast 11-6,gregorian julian\nMartini,feast 11-11,gregorian julian\nMarti\
nmas,feast 11-11,gregorian julian\nSaint-Martin,feast 11-11,gregorian julian\nElisabethae,feast 11-19,gregorian julian\
\nPraesentationis Mariae,feast 11-21,gregorian julian\nCaeciliae,feast 11-22,gregorian julian\nClementis,feast 11-23,gr\
egorian julian\nCatharinae,feast 11-25,gregorian julian\nKatharinae,feast 11-25,gregorian julian\nKatherine,feast 11-25\
,gregorian julian\nAndreae,feast 11-30,gregorian julian\nAndree,feast 11-30,gregorian julian\nBarbarae,feast 12-4,grego\
rian julian\nNicolai,feast 12-6,gregorian julian\nNikolai,feast 12-6,gregorian julian\nConceptionis Mariae,feast 12-8,g\
regorian julian\nMariä Empfängnis,feast 12-8,gregorian julian\nLuciae,feast 12-13,gregorian julian\nLucie,feast 12-13\
,gregorian julian\nThomae,feast 12-21,gregorian julian\nThome,feast 12-21,gregorian julian\nHeiligabend,feast 12-24,gre\
gorian julian\nWeihnachten,feast 12-25,gregorian julian\nNativitatis Domini,feast 12-25,gregorian julian\nNativitatis C\
hristi,feast 12-25,gregorian julian\nNativitatis,feast 12-25,gregorian julian\nChristmas,feast 12-25,gregorian julian\n\
Christmas Day,feast 12-25,gregorian julian\nNoël,feast 12-25,gregorian julian\nStephani,feast 12-26,gregorian julian\n\
Johannis Evangelistae,feast 12-27,gregorian julian\nInnocentum,feast 12-28,gregorian julian\nUnschuldige Kinder,feast 1\
2-28,gregorian julian\nSilvestri,feast 12-31,gregorian julian\nSilvester,feast 12-31,gregorian julian\nPurificationis M\
ariae virginis,feast 2-2,gregorian julian\nPurificationis Marie virginis,feast 2-2,gregorian julian\nPurificationis Mar\
ie,feast 2-2,gregorian julian\nPurificationis beatae Mariae,feast 2-2,gregorian julian\nPurificationis beate Marie,feas\
t 2-2,gregorian julian\nPurificationis beatae Mariae virginis,feast 2-2,gregorian julian\nPurificationis beate Marie vi\
rginis,feast 2-2,gregorian julian\nPurificationis B M V,feast 2-2,gregorian julian\nAnnunciationis Mariae virginis,feas\
t 3-25,gregorian julian\nAnnunciationis Marie virginis,feast 3-25,gregorian julian\nAnnunciationis Marie,feast 3-25,gre\
gorian julian\nAnnunciationis beatae Mariae,feast 3-25,gregorian julian\nAnnunciationis beate Marie,feast 3-25,gregoria\
n julian\nAnnunciationis beatae Mariae virginis,feast 3-25,gregorian julian\nAnnunciationis beate Marie virginis,feast \
3-25,gregorian julian\nAnnunciationis B M V,feast 3-25,gregorian julian\nAnnuntiationis Mariae virginis,feast 3-25,greg\
orian julian\nAnnuntiationis Marie virginis,feast 3-25,gregorian julian\nAnnuntiationis Marie,feast 3-25,gregorian juli\
an\nAnnuntiationis beatae Mariae,feast 3-25,gregorian julian\nAnnuntiationis beate Marie,feast 3-25,gregorian julian\nA\
nnuntiationis beatae Mariae virginis,feast 3-25,gregorian julian\nAnnuntiationis beate Marie virginis,feast 3-25,gregor\
ian julian\nAnnuntiationis B M V,feast 3-25,gregorian julian\nVisitationis Mariae virginis,feast 7-2,gregorian julian\n\
Visitationis Marie virginis,feast 7-2,gregorian julian\nVisitationis Marie,feast 7-2,gregorian julian\nVisitationis bea\
tae Mariae,feast 7-2,gregorian julian\nVisitationis beate Marie,feast 7-2,gregorian julian\nVisitationis beatae Mariae \
virginis,feast 7-2,gregorian julian\nVisitationis beate Marie virginis,feast 7-2,gregorian julian\nVisitationis B M V,f\
east 7-2,gregorian julian\nAssumptionis Mariae virginis,feast 8-15,gregorian julian\nAssumptionis Marie virginis,feast \
8-15,gregorian julian\nAssumptionis Marie,feast 8-15,gregorian julian\nAssumptionis beatae Mariae,feast 8-15,gregorian \
julian\nAssumptionis beate Marie,feast 8-15,gregorian julian\nAssumptionis beatae Mariae virginis,feast 8-15,gregorian \
julian\nAssumptionis beate Marie virginis,feast 8-15,gregorian julian\nAssumptionis B M V,feast 8-15,gregorian julian\n\
Nativitatis Mariae virginis,feast 9-8,gregorian julian\nNativitatis Marie virginis,feast 9-8,gregorian julian\nNativita\
tis Marie,feast 9-8,gregorian julian\nNativitatis beatae Mariae,feast 9-8,gregorian julian\nNativitatis beate Marie,fea\
st 9-8,gregorian julian\nNativitatis beatae Mariae virginis,feast 9-8,gregorian julian\nNativitatis beate Marie virgini\
s,feast 9-8,gregorian julian\nNativitatis B M V,feast 9-8,gregorian julian\nConceptionis Mariae virginis,feast 12-8,gre\
gorian julian\nConceptionis Marie virginis,feast 12-8,gregorian julian\nConceptionis Marie,feast 12-8,gregorian julian\
\nConceptionis beatae Mariae,feast 12-8,gregorian julian\nConceptionis beate Marie,feast 12-8,gregorian julian\nConcept\
ionis beatae Mariae virginis,feast 12-8,gregorian julian\nConceptionis beate Marie virginis,feast 12-8,gregorian julian\
\nConceptionis B M V,feast 12-8,gregorian julian\nÉpiphanie,feast 1-6,gregorian julian\nTheophaniae,feast 1-6,gregoria\
n julian\nEpiphaniae Domini,feast 1-6,gregorian julian\nEpiphanie Domini,feast 1-6,gregorian julian\nThomae martyris,fe\
ast 12-29,gregorian julian\nThome martyris,feast 12-29,gregorian julian\nStephani protomartyris,feast 12-26,gregorian j\
ulian\nMichaelistag,feast 9-29,gregorian julian\nMartinstag,feast 11-11,gregorian julian\nMartinitag,feast 11-11,gregor\
ian julian\nWeihnachtstag,feast 12-25,gregorian julian\nChristtag,feast 12-25,gregorian julian\nPaschatis,easter 0,greg\
orian julian\nPaschatos,easter 0,gregorian julian\nPfingsttag,easter 49,gregorian julian\nHimmelfahrtstag,easter 39,gre\
gorian julian\nFronleichnamstag,easter 60,gregorian julian\nChristmas Eve,feast 12-24,gregorian julian\nNew Year's Day,\
feast 1-1,gregorian julian\nNew Year’s Day,feast 1-1,gregorian julian\nNeujahrstag,feast 1-1,gregorian julian\nInnoce\
ntium,feast 12-28,gregorian julian\ninfra octavam,after,gregorian julian\nEpiphaniam,feast 1-6,gregorian julian\nEpipha\
nia Domini,feast 1-6,gregorian julian\nNativitas Domini,feast 12-25,gregorian julian\nCircumcisio Domini,feast 1-1,greg\
orian julian\nferia secunda Paschae,easter 1,gregorian julian\nferia tertia Paschae,easter 2,gregorian julian\nAscensi\
o Domini,easter 39,gregorian julian\nferia secunda Pentecostes,easter 50,gregorian julian\nferia tertia Pentecostes,eas\
ter 51,gregorian julian\nConversio Pauli,feast 1-25,gregorian julian\nPurificatio Mariae,feast 2-2,gregorian julian\nAn\
nuntiatio Mariae,feast 3-25,gregorian julian\nInventio crucis,feast 5-3,gregorian julian\nNativitas Johannis Baptistae,\
feast 6-24,gregorian julian\nVisitatio Mariae,feast 7-2,gregorian julian\nDivisio apostolorum,feast 7-15,gregorian juli\
an\nAssumptio Mariae,feast 8-15,gregorian julian\nDecollatio Johannis,feast 8-29,gregorian julian\nNativitas Mariae,fea\
st 9-8,gregorian julian\nExaltatio crucis,feast 9-14,gregorian julian\nPraesentatio Mariae,feast 11-21,gregorian julian\
\nConceptio Mariae,feast 12-8,gregorian julian\nante,,roman\nante diem,,roman\na,,roman\nden,,\nder,,\ndes,,\ndem,,\nam\
,,\nvom,,\nim,,\nin,,\nanno,year,\nanno domini,year,\nao,year,\nAD,year,\nA D,year,\nthe,,\nof,,\non,,\nday,day,\nle,,\
\nla,,\ndu,,\nde,,\nl'an,year,\nl’an,year,\nan,year,\nannée,year,\nl'année,year,\nl’année,year,\nen,,\nil,,\ndel\
,,\ndell'anno,year,\ndell’anno,year,\nel,,\ndía,day,\ndel año,year,\naño,year,\ndnia,day,\nroku,year,\nr,year,\ndn\
e,day,\ndie,day,\nde dato,,\nvan,,\nhet,,\n1 er,1,\nère,,\nere,,\nème,,\neme,,\nre,,\nst,,\nnd,,\nrd,,\nth,,\nte,,\nt\
er,,gregorian julian hebrew islamic french republican\nsten,,\nste,,\ntes,,\nens,,\nº,,\nª,,\ne,,\nster,,\nyear,year,\
\nyear of our Lord,year,\nof our Lord,year,\nour Lord,year,\nJahr,year,\nJahre,year,\nJahres,year,\nnach Christi Geburt\
,year,\nn Chr,year,\nanno Dni,year,\nanno salutis,year,\nanni,year,\nannus,year,\nAo Dni,year,\nA°,year,\nAº,year,\nj\
aar,year,\njaer,year,\ndo ano,year,\nano,year,\nannée de grâce,year,\nl'an de grâce,year,\nl’an de grâce,year,\nl\
'an de grace,year,\nl’an de grace,year,\nгода,year,\nгод,year,\nгоду,year,\nгодъ,year,\nгода от \
Рождества Христова,year,\nг,year,\når,year,\naar,year,\nár,year,\nAnno Christi,year,\nnell'anno,yea\
r,\nnell’anno,year,\nго,,\nого,,\nye,,\njour de,day,\nдня,day,\nчисла,day,\ndag,day,\nTag des,day,\ndì,\
day,\na dì,day,\nadì,day,\naddì,day,\nde la République,,french republican\nde la Republique,,french republican\nde \
la République française,,french republican\nde la République francaise,,french republican\nde la République franço\
ise,,french republican\nde la Republique francaise,,french republican\nde la Republique françoise,,french republican\n\
de la Republique francoise,,french republican\nde la République une et indivisible,,french republican\nde la Républiq\
ue française une et indivisible,,french republican\nder Republik,,french republican\nder fränkischen Republik,,frenc\
h republican\nder französischen Republik,,french republican\nder fränk. Republik,,french republican\nder frz. Republi\
k,,french republican\nrépublicain,,french republican\nrépublicaine,,french republican\nde l'ère républicaine,,frenc\
h republican\nde l’ère républicaine,,french republican\nfestum,,gregorian julian\nfesti,,gregorian julian\nfest,,gr\
egorian julian\nfeast of,,gregorian julian\nfête de,,gregorian julian\ndivi,,gregorian julian\ndivae,,gregorian julian\
\nbeate,,gregorian julian\nsancte,,gregorian julian\nfesto,,gregorian julian\nin festo,,gregorian julian\nin die,day,gr\
egorian julian\nS Agnetis,feast 1-21,gregorian julian\nS Vincentii,feast 1-22,gregorian julian\nS Blasii,feast 2-3,greg\
orian julian\nS Agathae,feast 2-5,gregorian julian\nS Valentini,feast 2-14,gregorian julian\nS Matthiae,feast 3-1 -5,gr\
egorian julian\nS Mathie,feast 3-1 -5,gregorian julian\nS Gertrudis,feast 3-17,gregorian julian\nS Benedicti,feast 3-21\
,gregorian julian\nS Marci,feast 4-25,gregorian julian\nS Urbani,feast 5-25,gregorian julian\nS Viti,feast 6-15,gregori\
an julian\nS Johannis Baptistae,feast 6-24,gregorian julian\nS Johannis Baptiste,feast 6-24,gregorian julian\nS Petri e\
t Pauli,feast 6-29,gregorian julian\nS Johannis et Pauli,feast 6-26,gregorian julian\nS Kiliani,feast 7-8,gregorian jul\
ian\nS Mariae Magdalenae,feast 7-22,gregorian julian\nS Marie Magdalene,feast 7-22,gregorian julian\nS Jacobi,feast 7-2\
5,gregorian julian\nS Jakobi,feast 7-25,gregorian julian\nS Annae,feast 7-26,gregorian julian\nS Laurentii,feast 8-10,g\
regorian julian\nS Bartholomaei,feast 8-24,gregorian julian\nS Bartholomei,feast 8-24,gregorian julian\nS Decollationi\
s Johannis,feast 8-29,gregorian julian\nS Aegidii,feast 9-1,gregorian julian\nS Egidii,feast 9-1,gregorian julian\nS La\
mberti,feast 9-17,gregorian julian\nS Matthaei,feast 9-21,gregorian julian\nS Mauritii,feast 9-22,gregorian julian\nS M\
ichaelis,feast 9-29,gregorian julian\nS Michael,feast 9-29,gregorian julian\nS Remigii,feast 10-1,gregorian julian\nS F\
rancisci,feast 10-4,gregorian julian\nS Dionysii,feast 10-9,gregorian julian\nS Galli,feast 10-16,gregorian julian\nS L\
ucae,feast 10-18,gregorian julian\nS Simonis et Judae,feast 10-28,gregorian julian\nS Leonhardi,feast 11-6,gregorian ju\
lian\nS Martini,feast 11-11,gregorian julian\nS Elisabethae,feast 11-19,gregorian julian\nS Caeciliae,feast 11-22,grego\
rian julian\nS Clementis,feast 11-23,gregorian julian\nS Catharinae,feast 11-25,gregorian julian\nS Katharinae,feast 11\
-25,gregorian julian\nS Andreae,feast 11-30,gregorian julian\nS Andree,feast 11-30,gregorian julian\nS Barbarae,feast 1\
2-4,gregorian julian\nS Nicolai,feast 12-6,gregorian julian\nS Nikolai,feast 12-6,gregorian julian\nS Luciae,feast 12-1\
3,gregorian julian\nS Lucie,feast 12-13,gregorian julian\nS Thomae,feast 12-21,gregorian julian\nS Thome,feast 12-21,gr\
egorian julian\nS Stephani,feast 12-26,gregorian julian\nS Johannis Evangelistae,feast 12-27,gregorian julian\nS Thoma\
e martyris,feast 12-29,gregorian julian\nS Thome martyris,feast 12-29,gregorian julian\nS Silvestri,feast 12-31,gregori\
an julian\nS Philippi et Jacobi,feast 5-1,gregorian julian\nS Walpurgis,feast 5-1,gregorian julian\nO S,,julian\na St,,\
julian\nalten Stils,,julian\nold style,,julian\nN S,,gregorian\nn St,,gregorian\nneuen Stils,,gregorian\nnew style,,gre\
gorian\nSankt,,gregorian julian\nsancti,,gregorian julian\nsanctae,,gregorian julian\nbeati,,gregorian julian\nbeatae,,\
gregorian julian\napostoli,,gregorian julian\napostolorum,,gregorian julian\nevangelistae,,gregorian julian\narchangeli\
,,gregorian julian\nten jare,year,\nJan y,month 1,gregorian julian\nJan ry,month 1,gregorian julian\nFeb y,month 2,greg\
orian julian\nFeb ry,month 2,gregorian julian\nMch,month 3,gregorian julian\nAp'l,month 4,gregorian julian\nAp’l,mont\
h 4,gregorian julian\nAp l,month 4,gregorian julian\nAug't,month 8,gregorian julian\nAug’t,month 8,gregorian julian\n\
Aug t,month 8,gregorian julian\nSept'r,month 9,gregorian julian\nSept’r,month 9,gregorian julian\nSept r,month 9,greg\
orian julian\nSep'r,month 9,gregorian julian\nSep’r,month 9,gregorian julian\nSep r,month 9,gregorian julian\nOct'r,m\
onth 10,gregorian julian\nOct’r,month 10,gregorian julian\nOct r,month 10,gregorian julian\nNov'r,month 11,gregorian \
julian\nNov’r,month 11,gregorian julian\nNov r,month 11,gregorian julian\nDec'r,month 12,gregorian julian\nDec’r,mo\
nth 12,gregorian julian\nDec r,month 12,gregorian julian\nJanuarie,month 1,gregorian julian\nJanuarye,month 1,gregoria\
n julian\nFebruarie,month 2,gregorian julian\nFebruarye,month 2,gregorian julian\nMarche,month 3,gregorian julian\nApri\
ll,month 4,gregorian julian\nMaye,month 5,gregorian julian\nMaie,month 5,gregorian julian\nIune,month 6,gregorian julia\
n\nIuly,month 7,gregorian julian\nIulie,month 7,gregorian julian\nJulie,month 7,gregorian julian\nJulye,month 7,gregori\
an julian\nAuguste,month 8,gregorian julian\nSeptemb,month 9,gregorian julian\nOctob,month 10,gregorian julian\nNovemb,\
month 11,gregorian julian\nDecemb,month 12,gregorian julian\nLord's Day,weekday 0,\nLord’s Day,weekday 0,\nLords Day,\
weekday 0,\nWeds,weekday 3,\nWednes,weekday 3,\nJanuario,month 1,gregorian julian\nIanuario,month 1,gregorian julian\nF\
ebruario,month 2,gregorian julian\nMartio,month 3,gregorian julian\nAprili,month 4,gregorian julian\nIunio,month 6,greg\
orian julian\nIulio,month 7,gregorian julian\nAugusto,month 8,gregorian julian\nSeptembri,month 9,gregorian julian\n7br\
i,month 9,gregorian julian\nVII bris,month 9,gregorian julian\nOctobri,month 10,gregorian julian\n8bri,month 10,gregori\
an julian\nVIII bris,month 10,gregorian julian\nNovembri,month 11,gregorian julian\n9bri,month 11,gregorian julian\nIX \
bris,month 11,gregorian julian\nDecembri,month 12,gregorian julian\n10bri,month 12,gregorian julian\nXbri,month 12,greg\
orian julian\nX bris,month 12,gregorian julian\nX ber,month 12,gregorian julian\nX bre,month 12,gregorian julian\nIanua\
r,month 1,gregorian julian\nSeptembr,month 9,gregorian julian\nNovembr,month 11,gregorian julian\nDecembr,month 12,greg\
orian julian\ndie Solis,weekday 0,\ndies Solis,weekday 0,\nferia II,weekday 1,\nfer 2,weekday 1,\nfer II,weekday 1,\nfe\
ria III,weekday 2,\nfer 3,weekday 2,\nfer III,weekday 2,\nferia IV,weekday 3,\nferia IIII,weekday 3,\nfer 4,weekday 3,\
\nfer IV,weekday 3,\nferia V,weekday 4,\nfer 5,weekday 4,\nfer V,weekday 4,\nferia VI,weekday 5,\nfer 6,weekday 5,\nfe\
r VI,weekday 5,\nsabbati,weekday 6,\nsabbathi,weekday 6,\ndie Sabbathi,weekday 6,\nsabbatho,weekday 6,\nіануарі\
й,month 1,gregorian julian\nіануарія,month 1,gregorian julian\nянуарій,month 1,gregorian julian\nяну\
арія,month 1,gregorian julian\nфев,month 2,gregorian julian\nфевруарій,month 2,gregorian julian\nфев\
руарія,month 2,gregorian julian\nмартъ,month 3,gregorian julian\nаприлій,month 4,gregorian julian\nа\
прилія,month 4,gregorian julian\nмаій,month 5,gregorian julian\nмаія,month 5,gregorian julian\nмаия,m\
onth 5,gregorian julian\nмайя,month 5,gregorian julian\nіуній,month 6,gregorian julian\nіунія,month 6,gre\
gorian julian\nиюния,month 6,gregorian julian\nіюн,month 6,gregorian julian\nіулій,month 7,gregorian julia\
n\nіулія,month 7,gregorian julian\nиюлия,month 7,gregorian julian\nіюл,month 7,gregorian julian\nавгу\
стъ,month 8,gregorian julian\nсептемврій,month 9,gregorian julian\nсептемврія,month 9,gregorian \
julian\nсен,month 9,gregorian julian\nсентебря,month 9,gregorian julian\nоктоврій,month 10,gregoria\
n julian\nоктоврія,month 10,gregorian julian\nоктебря,month 10,gregorian julian\nноемврій,month \
11,gregorian julian\nноемврія,month 11,gregorian julian\nноя,month 11,gregorian julian\nдекемврій,m\
onth 12,gregorian julian\nдекемврія,month 12,gregorian julian\nвоскресеніе,weekday 0,\nвоскре\
сение,weekday 0,\nвоскр,weekday 0,\nвс,weekday 0,\nпонедѣльникъ,weekday 1,\nпонедѣльн\
ик,weekday 1,\nпн,weekday 1,\nвторникъ,weekday 2,\nвт,weekday 2,\nсреду,weekday 3,\nсереду,wee\
kday 3,\nср,weekday 3,\nчетвергъ,weekday 4,\nчетвертокъ,weekday 4,\nчт,weekday 4,\nпятницу\
,weekday 5,\nпятокъ,weekday 5,\nпт,weekday 5,\nсубботу,weekday 6,\nсб,weekday 6,\nсїчень,month 1\
,gregorian julian\nсїчня,month 1,gregorian julian\nмарець,month 3,gregorian julian\nмарця,month 3,grego\
rian julian\nкві,month 4,gregorian julian\nцвітень,month 4,gregorian julian\nцвітня,month 4,gregorian j\
ulian\nтра,month 5,gregorian julian\nчер,month 6,gregorian julian\nжов,month 10,gregorian julian\nлис,mont\
h 11,gregorian julian\nгру,month 12,gregorian julian\nнеділю,weekday 0,\nнд,weekday 0,\nп'ятниця,week\
day 5,\nп’ятниця,weekday 5,\nп'ятницю,weekday 5,\nп’ятницю,weekday 5,\nпʼятницю,weekda\
y 5,\nсуботу,weekday 6,\nJanuárius,month 1,gregorian julian\nFebruárius,month 2,gregorian julian\nMártius,mont\
h 3,gregorian julian\nMárczius,month 3,gregorian julian\nMártzius,month 3,gregorian julian\nMarcius,month 3,gregoria\
n julian\nDeczember,month 12,gregorian julian\nDeczber,month 12,gregorian julian\njanuár hó,month 1,gregorian julian\
\njanuár hava,month 1,gregorian julian\njanuár havának,month 1,gregorian julian\nfebruár hó,month 2,gregorian juli\
an\nfebruár hava,month 2,gregorian julian\nfebruár havának,month 2,gregorian julian\nmárcius hó,month 3,gregorian \
julian\nmárcius hava,month 3,gregorian julian\nmárcius havának,month 3,gregorian julian\náprilis hó,month 4,gregor\
ian julian\náprilis hava,month 4,gregorian julian\náprilis havának,month 4,gregorian julian\nmájus hó,month 5,greg\
orian julian\nmájus hava,month 5,gregorian julian\nmájus havának,month 5,gregorian julian\njúnius hó,month 6,grego\
rian julian\njúnius hava,month 6,gregorian julian\njúnius havának,month 6,gregorian julian\njúlius hó,month 7,greg\
orian julian\njúlius hava,month 7,gregorian julian\njúlius havának,month 7,gregorian julian\naugusztus hó,month 8,g\
regorian julian\naugusztus hava,month 8,gregorian julian\naugusztus havának,month 8,gregorian julian\nszeptember hó,m\
onth 9,gregorian julian\nszeptember hava,month 9,gregorian julian\nszeptember havának,month 9,gregorian julian\noktób\
er hó,month 10,gregorian julian\noktóber hava,month 10,gregorian julian\noktóber havának,month 10,gregorian julian\
\nnovember hó,month 11,gregorian julian\nnovember hava,month 11,gregorian julian\nnovember havának,month 11,gregoria\
n julian\ndecember hó,month 12,gregorian julian\ndecember hava,month 12,gregorian julian\ndecember havának,month 12,g\
regorian julian\nBoldogasszony hava,month 1,gregorian julian\nBöjtelő hava,month 2,gregorian julian\nBöjtmás hava,m\
onth 3,gregorian julian\nSzent György hava,month 4,gregorian julian\nPünkösd hava,month 5,gregorian julian\nSzent Iv\
án hava,month 6,gregorian julian\nSzent Jakab hava,month 7,gregorian julian\nKisasszony hava,month 8,gregorian julian\
\nSzent Mihály hava,month 9,gregorian julian\nMindszent hava,month 10,gregorian julian\nSzent András hava,month 11,gr\
egorian julian\nKarácsony hava,month 12,gregorian julian\nvasarnap,weekday 0,\nhétfőn,weekday 1,\nhetfo,weekday 1,\n\
hétf,weekday 1,\nkedden,weekday 2,\nszerdán,weekday 3,\nszerdan,weekday 3,\ncsütörtökön,weekday 4,\ncsutortok,wee\
kday 4,\ncsüt,weekday 4,\npénteken,weekday 5,\npentek,weekday 5,\npént,weekday 5,\nszombaton,weekday 6,\nszomb,weekd\
ay 6,\nJaneyro,month 1,gregorian julian\nJanro,month 1,gregorian julian\nJan ro,month 1,gregorian julian\nFevereyro,mon\
th 2,gregorian julian\nFevro,month 2,gregorian julian\nFev ro,month 2,gregorian julian\nmarso,month 3,gregorian julian\
\nSeptembro,month 9,gregorian julian\n7bro,month 9,gregorian julian\nSetbro,month 9,gregorian julian\nOctubro,month 10,\
gregorian julian\n8bro,month 10,gregorian julian\nOutbro,month 10,gregorian julian\n9bro,month 11,gregorian julian\nNov\
bro,month 11,gregorian julian\nDecembro,month 12,gregorian julian\n10bro,month 12,gregorian julian\nXbro,month 12,grego\
rian julian\nDezbro,month 12,gregorian julian\nmês de janeiro,month 1,gregorian julian\nmez de janeiro,month 1,gregori\
an julian\ndo mês de janeiro,month 1,gregorian julian\ndo mez de janeiro,month 1,gregorian julian\nmês de fevereiro,m\
onth 2,gregorian julian\nmez de fevereiro,month 2,gregorian julian\ndo mês de fevereiro,month 2,gregorian julian\ndo m\
ez de fevereiro,month 2,gregorian julian\nmês de março,month 3,gregorian julian\nmez de março,month 3,gregorian juli\
an\ndo mês de março,month 3,gregorian julian\ndo mez de março,month 3,gregorian julian\nmês de abril,month 4,gregor\
ian julian\nmez de abril,month 4,gregorian julian\ndo mês de abril,month 4,gregorian julian\ndo mez de abril,month 4,g\
regorian julian\nmês de maio,month 5,gregorian julian\nmez de maio,month 5,gregorian julian\ndo mês de maio,month 5,g\
regorian julian\ndo mez de maio,month 5,gregorian julian\nmês de junho,month 6,gregorian julian\nmez de junho,month 6,\
gregorian julian\ndo mês de junho,month 6,gregorian julian\ndo mez de junho,month 6,gregorian julian\nmês de julho,mo\
nth 7,gregorian julian\nmez de julho,month 7,gregorian julian\ndo mês de julho,month 7,gregorian julian\ndo mez de jul\
ho,month 7,gregorian julian\nmês de agosto,month 8,gregorian julian\nmez de agosto,month 8,gregorian julian\ndo mês d\
e agosto,month 8,gregorian julian\ndo mez de agosto,month 8,gregorian julian\nmês de setembro,month 9,gregorian julian\
\nmez de setembro,month 9,gregorian julian\ndo mês de setembro,month 9,gregorian julian\ndo mez de setembro,month 9,gr\
egorian julian\nmês de outubro,month 10,gregorian julian\nmez de outubro,month 10,gregorian julian\ndo mês de outubro\
,month 10,gregorian julian\ndo mez de outubro,month 10,gregorian julian\nmês de novembro,month 11,gregorian julian\nme\
z de novembro,month 11,gregorian julian\ndo mês de novembro,month 11,gregorian julian\ndo mez de novembro,month 11,gre\
gorian julian\nmês de dezembro,month 12,gregorian julian\nmez de dezembro,month 12,gregorian julian\ndo mês de dezemb\
ro,month 12,gregorian julian\ndo mez de dezembro,month 12,gregorian julian\nseg,weekday 1,\n2ª feira,weekday 1,\nterca\
-feira,weekday 2,\n3ª feira,weekday 2,\nqua,weekday 3,\n4ª feira,weekday 3,\nqui,weekday 4,\n5ª feira,weekday 4,\n6\
ª feira,weekday 5,\nsáb,weekday 6,\nsabado,weekday 6,\nsab,weekday 6,\nenº,month 1,gregorian julian\nen.º,month 1,g\
regorian julian\nhenero,month 1,gregorian julian\nfebº,month 2,gregorian julian\nhebrero,month 2,gregorian julian\nfeb\
ro,month 2,gregorian julian\nmço,month 3,gregorian julian\nmzo,month 3,gregorian julian\nabl,month 4,gregorian julian\
\njunº,month 6,gregorian julian\njulº,month 7,gregorian julian\nagto,month 8,gregorian julian\nagº,month 8,gregoria\
n julian\nag to,month 8,gregorian julian\nseptbre,month 9,gregorian julian\nsetbre,month 9,gregorian julian\noctbre,mon\
th 10,gregorian julian\notubre,month 10,gregorian julian\nnobiembre,month 11,gregorian julian\nnovbre,month 11,gregoria\
n julian\nnovre,month 11,gregorian julian\n\
";
